//! Which nodes have halted. It is said after a run or a trial.

ghost use Rattle.tp_views.specs.Lower.{TrialAs, fresh_image};

use crate::commands::TRY_QUANTUM;
use crate::explanations::looking::open_to_read;
use std::alloc::Global;
use std::fs::{self, Files, OpenFile};
use std::io::Write;
use std::os::unix::fs::FileExt;
use tp_disk::Disk;
use tp_model::limits::MAX_NODES;
use tp_node::{Node, Standing};
use tp_recover::open;
use tp_stream_files::{Stopped, say_stopped};
use tp_turn::{Trial, TryFault, try_standing};
use tp_words::Asked;

/// Says at which address a node has halted. Ignores a failed write.
fn say_halted<E: Write>(number: u8, standing: Standing, err: &mut E) {
    if let Standing::Halted { fault, at } = standing {
        say_stopped(err, number, Stopped::Halted { fault, at });
    }
}

/// Says which of these nodes have halted, and at which addresses, a line each.
fn say_each_halted<E: Write>(nodes: &[Node], err: &mut E) {
    for (node, number) in nodes.iter().zip(0..MAX_NODES as u8) {
        say_halted(number, node.standing(), err);
    }
}

/// Says which nodes of a device have halted. If the device doesn't open, it says nothing.
fn tell_opened<D: Disk, E: Write>(alloc: Global, disk: &mut D, err: &mut E) {
    if let Ok(opened) = open(alloc, disk) {
        say_each_halted(opened.network().nodes(), err);
    }
}

/// Says which nodes of a device that was run have halted: it opens the device again, to be only read. If the device doesn't open, it says nothing.
fn tell_run<R: Files<File = F> + AllocGlobal, F: FileExt + OpenFile + Drop, E: Write>(
    rt: &R,
    device: &str,
    err: &mut E,
) {
    if let Ok(mut disk) = open_to_read(rt, device) {
        tell_opened(rt.alloc(), &mut disk, err);
    }
}

/// Tries the node of this image again, as `attempt` does.
fn trial_of(alloc: Global, image: &[u8], turns: u32) -> Result<Trial, TryFault>
    ensures { TrialAs (fresh_image image.now) turns TRY_QUANTUM result }
{
    try_standing(alloc, image, turns, TRY_QUANTUM)
}

/// Says whether the node of this image has halted after its turns. If memory runs out, or the bytes are no image, it says nothing.
fn tell_image<E: Write>(alloc: Global, image: &[u8], turns: u32, err: &mut E) {
    if let Ok(trial) = trial_of(alloc, image, turns) {
        say_halted(0, trial.standing, err);
    }
}

/// Says whether a node that was tried has halted: it tries the node again. It says nothing if the image can't be read, or if memory runs out.
fn tell_trial<R: Files + AllocGlobal, E: Write>(rt: &R, image: &str, turns: u32, err: &mut E) {
    if let Ok(bytes) = fs::read(rt, image) {
        tell_image(rt.alloc(), bytes.as_slice(), turns, err);
    }
}

/// Says which nodes have halted of those that were run or tried.
pub fn tell_halted<R: Files<File = F> + AllocGlobal, F: FileExt + OpenFile + Drop, E: Write>(
    rt: &R,
    asked: &Asked,
    err: &mut E,
) {
    match asked {
        Asked::Run(run) => tell_run(rt, run.device.as_str(), err),
        Asked::Try { image, turns } => tell_trial(rt, image.as_str(), *turns, err),
        _ => {}
    }
}
