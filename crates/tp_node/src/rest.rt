//! What is left to do.

ghost use Rattle.std.specs.Prelude.{◌≡◌};
ghost use Rattle.tp_node.specs.Rest.{LeavesNoStep, has_nobody, rest_of};
ghost use Rattle.tp_node.specs.StateWith.{state_with};

use crate::head::Head;
use tp_cpu::{KEPT_AT, NOT_PROCESS};
use tp_mem::Mem;
use tp_model::State;

/// What is left to do for a node, or in a network.
#[derive(Clone, Copy, Debug, PartialEq, Eq)]
pub enum Rest {
    /// The node has halted, or each node of the network has.
    Halted,
    /// Nothing is left to do, and some node hasn't halted.
    Quiet,
    /// Something is left to do.
    Busy,
}

/// Whether no process of it runs, none is queued, and none was interrupted.
pub(crate) fn has_nobody<M: Mem>(head: &Head, mem: &M) -> bool
    ensures { result ≡ has_nobody (state_with head.now (M.bytes mem.now)) }
{
    let is_idle = match head.cpu.state {
        State::Idle => true,
        State::High | State::Low => false,
    };
    let is_nobody = match mem.read_word(KEPT_AT) {
        None => false,
        Some(word) => word == NOT_PROCESS,
    };
    is_idle && head.cpu.high.front == NOT_PROCESS && head.cpu.low.front == NOT_PROCESS && is_nobody
}

/// Tells what is left to do for the node of a head and a memory. If nothing is, it has no step.
#[tactic(auto, using(crate::proofs::Answered::halted_rests, crate::proofs::Resting::nobody_rests))]
pub(crate) fn rest_of<M: Mem>(head: &Head, mem: &M) -> Rest
    ensures value { result ≡ rest_of (state_with head.now (M.bytes mem.now)) }
    ensures steps { LeavesNoStep result (state_with head.now (M.bytes mem.now)) }
{
    if head.cpu.halt.is_some() {
        return Rest::Halted;
    }
    if has_nobody(head, mem) {
        Rest::Quiet
    } else {
        Rest::Busy
    }
}
