//! What the program does for a command line with `--stream`.

ghost use Rattle.std.specs.Prelude.{◌≡◌, ◌≤◌, Some, string_bytes};
ghost use Rattle.tp_program.specs.Lower.{History, IsStreamRun};
ghost use Rattle.tp_program.specs.Answers.{StreamedHeld};
ghost use Rattle.tp_program.specs.StreamFile.{StreamedFile};

use crate::devices::{Devices, opening_refusal, refuse_special};
use crate::in_use::{explain_changed, is_busy, refuse_in_use};
use crate::stream_explain::explain_stream;
use crate::streaming::{FilesFault, Streamed, stream_on};
use std::fs::{Files, OpenFile};
use std::io;
use std::io::Write;
use std::os::unix::fs::FileExt;
use std::sync::Wait;
use std::thread::Threads;
use tp_disk::Disk;
use tp_stream_files::{Ending, Feed, Onlooker, StandardStreams};
use tp_views::{Refusal, is_openable, refuse, tell_inside};
use tp_words::StreamRun;

/// What came of a command: its `status`, and whether a stream ended because nothing was left to do (`is_quiet`). If a stream ended early, `fault`
/// says why, and `system` is what the system said of a failed call on the device.
#[derive(Drop)]
struct Outcome {
    status: u8,
    is_quiet: bool,
    fault: Option<FilesFault>,
    system: Option<io::Error>,
}

/// Whether a stream ended because nothing was left to do.
fn is_quiet(streamed: Streamed) -> bool {
    match streamed.done {
        Ok(ended) => matches!(ended.why, Ending::Quiet),
        Err(_) => false,
    }
}

/// Gives what came of a stream.
fn outcome_of(streamed: Streamed, system: Option<io::Error>) -> Outcome
    ensures { result.status ≡ streamed.status }
{
    Outcome {
        status: streamed.status,
        is_quiet: is_quiet(streamed),
        fault: streamed.done.err(),
        system,
    }
}

/// Says that the device's file isn't opened, and gives what came of that.
fn unopened<E: Write>(err: &mut E, refusal: Refusal, system: Option<io::Error>) -> Outcome
    ensures { result.status ≡ 1 }
{
    Outcome {
        status: refuse(err, refusal),
        is_quiet: false,
        fault: None,
        system,
    }
}

/// Says that the device's file isn't opened because it is no regular file, and gives what came of that.
fn unopened_special<S: Devices, E: Write>(devices: &S, asked: &StreamRun, err: &mut E) -> Outcome
    ensures { result.status ≡ 1 }
{
    let mut system = None;
    let status = refuse_special(devices, asked.device.as_str(), &mut system, err);
    Outcome {
        status,
        is_quiet: false,
        fault: None,
        system,
    }
}

/// `tpnet run --stream`, on files. It opens the device's file, which is held, as it is, and keeps its length.
#[inline(never)]
fn stream_file<
    R: Files<File = F> + StandardStreams + AllocGlobal + Threads + Wait + Sync,
    F: FileExt + OpenFile + Drop + Send,
    S: Devices<Device = D>,
    D: Disk + Drop + Send,
    I: Feed,
    O: Write,
    E: Write,
    W: Onlooker,
>(
    rt: &R,
    devices: &mut S,
    asked: &StreamRun,
    feed: &mut I,
    out: &mut O,
    err: &mut E,
    onlooker: &mut W,
) -> Outcome
    ghost history: { History }
    requires range { IsStreamRun asked.now }
    requires held { S.held devices.old ≡ Some (string_bytes asked.now.device) }
    ensures few { result.status ≤ 3 }
    ensures streamed { StreamedFile history asked.now (S.calls devices.old) (S.calls devices.new) (O.contents out.old) (O.contents out.new) result.status }
{
    if !is_openable(rt, asked.device.as_str()) {
        return unopened_special(devices, asked, err);
    }
    let disk = match devices.open(asked.device.as_str()) {
        Ok(disk) => disk,
        Err(error) => return unopened(err, opening_refusal(&error), Some(error)),
    };
    let (disk, streamed) = stream_on(rt, asked, disk, feed, out, err, onlooker);
    outcome_of(streamed, devices.close(disk))
}

/// Says more of a stream that was refused, or that ended early.
#[inline(never)]
fn say_why<R: Files<File = F> + AllocGlobal, F: FileExt + OpenFile + Drop, E: Write>(
    rt: &R,
    asked: &StreamRun,
    fault: Option<FilesFault>,
    system: Option<&io::Error>,
    err: &mut E,
) {
    match system {
        Some(error) if is_busy(error) => explain_changed(err),
        _ => explain_stream(rt, asked, fault, system, err),
    }
}

/// Makes the stream that is asked for. If `explains` is true, it says more: of a refusal why; of a stream that ended because nothing was left to do,
/// whether processes wait for other nodes. Answers the status.
fn stream_and_explain<
    R: Files<File = F> + StandardStreams + AllocGlobal + Threads + Wait + Sync,
    F: FileExt + OpenFile + Drop + Send,
    S: Devices<Device = D>,
    D: Disk + Drop + Send,
    I: Feed,
    O: Write,
    E: Write,
    W: Onlooker,
>(
    rt: &R,
    devices: &mut S,
    asked: &StreamRun,
    explains: bool,
    feed: &mut I,
    out: &mut O,
    err: &mut E,
    onlooker: &mut W,
) -> u8
    ghost history: { History }
    requires range { IsStreamRun asked.now }
    requires held { S.held devices.old ≡ Some (string_bytes asked.now.device) }
    ensures few { result ≤ 3 }
    ensures streamed { StreamedFile history asked.now (S.calls devices.old) (S.calls devices.new) (O.contents out.old) (O.contents out.new) result }
{
    let ended = stream_file(rt, devices, asked, feed, out, err, onlooker);
    if explains {
        match ended.status {
            0 if ended.is_quiet => tell_inside(rt, asked.device.as_str(), err),
            1 => say_why(rt, asked, ended.fault, ended.system.as_ref(), err),
            _ => {}
        }
    }
    ended.status
}

/// Asks for the device first, and makes the stream unless another process has it; if `explains` is true, it says more of a refusal. Answers the
/// status: that of the stream, 3 if it ended because a node halted.
pub(crate) fn hold_and_stream<
    R: Files<File = F> + StandardStreams + AllocGlobal + Threads + Wait + Sync,
    F: FileExt + OpenFile + Drop + Send,
    S: Devices<Device = D>,
    D: Disk + Drop + Send,
    I: Feed,
    O: Write,
    E: Write,
    W: Onlooker,
>(
    rt: &R,
    devices: &mut S,
    asked: &StreamRun,
    explains: bool,
    feed: &mut I,
    out: &mut O,
    err: &mut E,
    onlooker: &mut W,
) -> u8
    ghost history: { History }
    requires { IsStreamRun asked.now }
    ensures few { result ≤ 3 }
    ensures streamed { StreamedHeld history (feed.new ≡ feed.old) asked.now (S.calls devices.old) (S.calls devices.new) (O.contents out.old) (O.contents out.new) result }
{
    match devices.hold(asked.device.as_str(), asked.wait_lock) {
        Ok(()) => stream_and_explain(rt, devices, asked, explains, feed, out, err, onlooker),
        Err(_in_use) => refuse_in_use(explains, err),
    }
}
