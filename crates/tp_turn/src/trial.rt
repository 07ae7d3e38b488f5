//! The trial of an image.

ghost use Rattle.std.specs.Prelude.{◌≤◌};
ghost use Rattle.tp_turn.specs.Output.{OutputAs, TrialAs};
ghost use Rattle.tp_turn.specs.Tried.{fresh_image};

use crate::image::{TryFault, lone_node};
use crate::lone::Lone;
use std::alloc::Global;
use tp_model::limits::MAX_STEPS;
use tp_node::Standing;

/// What a trial leaves: what port 0 put out, and the node's state at the end.
#[derive(Drop)]
pub struct Trial {
    pub output: Vec<u8>,
    pub standing: Standing,
}

/// Tells what port 0 holds after `turns` turns of the node of `image` and the host, and the node's state then. The order is node, host,
/// node, host, and so on, and the turns are those that workers make. A run has at most `quantum` steps. More turns take no more memory.
/// `BadImage` for an image with which no device may be formatted, and `Memory` if memory is out.
pub fn try_standing(
    alloc: Global,
    image: &[u8],
    turns: u32,
    quantum: u16,
) -> Result<Trial, TryFault>
    requires { quantum ≤ MAX_STEPS }
    ensures { TrialAs (fresh_image image.now) turns quantum result }
{
    let node = lone_node(alloc, image)?;
    let Ok(mut lone) = Lone::start(alloc, image, node) else {
        return Err(TryFault::Memory);
    };
    lone.turns(turns, quantum)?;
    let standing = lone.standing();
    match lone.output(alloc) {
        Ok(output) => Ok(Trial { output, standing }),
        Err(_) => Err(TryFault::Memory),
    }
}

/// Tells what port 0 holds after the turns of such a trial. Fails as `try_standing` does.
pub fn try_output(
    alloc: Global,
    image: &[u8],
    turns: u32,
    quantum: u16,
) -> Result<Vec<u8>, TryFault>
    requires { quantum ≤ MAX_STEPS }
    ensures { OutputAs (fresh_image image.now) turns quantum result }
{
    let Trial { output, .. } = try_standing(alloc, image, turns, quantum)?;
    Ok(output)
}
