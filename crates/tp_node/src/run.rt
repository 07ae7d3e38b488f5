//! Runs of a node.

ghost use Rattle.std.specs.Prelude.{◌≡◌, ◌≤◌, ◌+◌, [], ◌++◌, Some, is_some, if◌then◌else◌, length, option_to_list};
ghost use Rattle.tp_node.specs.Lower.{steps, t414, node_ranges, kept_behind_steps, LacksFrames};
ghost use Rattle.tp_node.specs.RunEnd.{IsWhy};
ghost use Rattle.tp_node.specs.StateWith.{state_with};

use crate::head::Head;
use crate::step::{StepOutcome, make_step};
use arrayvec::ArrayVec;
use std::marker::Model;
use tp_cpu::{Runs, advance};
use tp_mem::Mem;
use tp_model::{Fault, Token};

/// Why a run ended.
#[derive(Clone, Copy, PartialEq, Eq)]
pub enum Why {
    /// All steps were made.
    Full,
    /// There is no step.
    Idle,
    /// Memory is frozen, and the shared pages that the next step would write outnumber the free frames.
    NoFrame,
    /// The node has halted.
    Halted,
}

/// What a run did. Only a run makes one, and nobody can copy it.
#[derive(Drop)]
pub struct Ran {
    max: u16,
    count: u16,
    why: Why,
}

impl Model for Ran {
    ghost use Rattle.tp_node.specs.RunEnd.{RunEnd};

    ghost Value = { RunEnd };

    ghost view = { λ r. record { max = r.max; count = r.count; why = r.why } };
}

impl Ran {
    /// Tells how many steps the call allowed.
    pub fn max(&self) -> u16
        ensures { result ≡ self.now.max }
    {
        self.max
    }

    /// Tells how many steps were made.
    pub fn count(&self) -> u16
        ensures { result ≡ self.now.count }
    {
        self.count
    }

    pub fn why(&self) -> Why
        ensures { result ≡ self.now.why }
    {
        self.why
    }
}

/// Appends what leaves to what left before.
fn push(sent: &mut ArrayVec<(u8, Token), 8>, token: Option<(u8, Token)>)
    requires { length sent.old.items + length (option_to_list token) ≤ 8 }
    ensures { sent.new.items ≡ sent.old.items ++ option_to_list token }
{
    if let Some(token) = token {
        sent.push(token);
    }
}

/// Tells why a node has no step.
fn why_none(halt: Option<Fault>) -> Why
    ensures { result ≡ (if is_some halt then Why.Halted else Why.Idle) }
{
    match halt {
        None => Why::Idle,
        Some(_) => Why::Halted,
    }
}

/// Makes at most `max` steps. `advance` makes all that it can; `make_step` makes the one before which it stops. `runs` is what the thread
/// keeps of instructions.
#[inline(always)]
pub(crate) fn run<M: Mem>(
    head: &mut Head,
    mem: &mut M,
    runs: &mut Runs,
    max: u16,
    sent: &mut ArrayVec<(u8, Token), 8>,
) -> Ran
    requires { sent.old.items ≡ [] }
    ensures asked { result.max ≡ max }
    ensures steps { steps t414 result.count (state_with head.old (M.bytes mem.old)) ≡ Some (state_with head.new (M.bytes mem.new), sent.new.items) }
    ensures why { IsWhy result.why max result.count (LacksFrames (M.kept mem.new) (node_ranges (state_with head.new (M.bytes mem.new)))) (state_with head.new (M.bytes mem.new)) }
    ensures kept { M.kept mem.new ≡ kept_behind_steps result.count (state_with head.old (M.bytes mem.old)) (M.kept mem.old) }
    ensures frozen { (M.kept mem.new).frozen ≡ (M.kept mem.old).frozen }
{
    let mut count = advance(&mut head.cpu, mem, runs, max);
    while count < max {
        match make_step(head, mem) {
            StepOutcome::Step(token) => push(sent, token),
            StepOutcome::Idle => {
                let why = why_none(head.cpu.halt);
                return Ran { max, count, why };
            }
            StepOutcome::NoFrame => {
                let why = Why::NoFrame;
                return Ran { max, count, why };
            }
        }
        count += 1;
        count += advance(&mut head.cpu, mem, runs, max - count);
    }
    Ran {
        max,
        count,
        why: Why::Full,
    }
}
