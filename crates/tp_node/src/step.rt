//! One step of a node.

ghost use Rattle.std.specs.Prelude.{◌≡◌, option_to_list};
ghost use Rattle.tp_node.specs.Lower.{on_link, asks_output, asks_input, node_step, asks_output_ranges, asks_input_ranges, node_ranges, LacksFrames};
ghost use Rattle.tp_node.specs.Makes.{Makes, kept_made};
ghost use Rattle.tp_node.specs.StateWith.{state_with};

use crate::head::Head;
use crate::input::begin_input;
use crate::output::begin_output;
use tp_cpu::{Undone, pass, step};
use tp_mem::Mem;
use tp_model::{InRequest, OutRequest, StepEnd, Token};

/// How a call that makes a step ends.
#[derive(Clone, Copy)]
pub(crate) enum StepOutcome {
    /// A step was made. The token leaves on that link, if one does.
    Step(Option<(u8, Token)>),
    /// There is no step.
    Idle,
    /// Memory is frozen, and the shared pages that the step would write outnumber the free frames. Nothing has changed.
    NoFrame,
}

/// What leaves, with its link.
fn on_link(link: u8, token: Option<Token>) -> Option<(u8, Token)>
    ensures { option_to_list result ≡ on_link link token }
{
    match token {
        None => None,
        Some(token) => Some((link, token)),
    }
}

/// Ends a step that asks something of an output end.
#[inline(always)]
fn output<M: Mem>(head: &mut Head, mem: &mut M, request: OutRequest) -> StepOutcome
    ensures makes { Makes (asks_output request (state_with head.old (M.bytes mem.old))) (LacksFrames (M.kept mem.old) (asks_output_ranges request (state_with head.old (M.bytes mem.old)))) (state_with head.old (M.bytes mem.old)) result (state_with head.new (M.bytes mem.new)) }
    ensures kept { M.kept mem.new ≡ kept_made result (M.kept mem.old) (asks_output_ranges request (state_with head.old (M.bytes mem.old))) }
{
    let link = request.link as usize;
    if link >= 4 {
        return StepOutcome::Idle;
    }
    let before = head.cpu;
    let mut engine = head.outputs[link];
    pass(&mut head.cpu, request.next);
    match begin_output(&mut engine, &mut head.cpu, mem, request) {
        Ok(token) => {
            head.outputs[link] = engine;
            StepOutcome::Step(on_link(request.link, token))
        }
        Err(Undone::Faulty(fault)) => {
            head.cpu = before;
            head.cpu.halt = Some(fault);
            StepOutcome::Step(None)
        }
        Err(Undone::NoFrame) => {
            head.cpu = before;
            StepOutcome::NoFrame
        }
        Err(_) => unreachable!(),
    }
}

/// Ends a step that asks something of an input end.
#[inline(always)]
fn input<M: Mem>(head: &mut Head, mem: &mut M, request: InRequest) -> StepOutcome
    ensures makes { Makes (asks_input request (state_with head.old (M.bytes mem.old))) (LacksFrames (M.kept mem.old) (asks_input_ranges request (state_with head.old (M.bytes mem.old)))) (state_with head.old (M.bytes mem.old)) result (state_with head.new (M.bytes mem.new)) }
    ensures kept { M.kept mem.new ≡ kept_made result (M.kept mem.old) (asks_input_ranges request (state_with head.old (M.bytes mem.old))) }
{
    let link = request.link as usize;
    if link >= 4 {
        return StepOutcome::Idle;
    }
    let before = head.cpu;
    let mut engine = head.inputs[link];
    pass(&mut head.cpu, request.next);
    match begin_input(&mut engine, &mut head.cpu, mem, request.wish) {
        Ok(token) => {
            head.inputs[link] = engine;
            StepOutcome::Step(on_link(request.link, token))
        }
        Err(Undone::Faulty(fault)) => {
            head.cpu = before;
            head.cpu.halt = Some(fault);
            StepOutcome::Step(None)
        }
        Err(Undone::NoFrame) => {
            head.cpu = before;
            StepOutcome::NoFrame
        }
        Err(_) => unreachable!(),
    }
}

/// Makes a step, if there is one.
#[inline(never)]
#[tactic(auto, unfolding(tp_model::specs::Node::node_step, tp_model::specs::NodeWrites::node_ranges, tp_model::specs::StepWrites::step_ranges))]
pub(crate) fn make_step<M: Mem>(head: &mut Head, mem: &mut M) -> StepOutcome
    ensures makes { Makes (node_step (state_with head.old (M.bytes mem.old))) (LacksFrames (M.kept mem.old) (node_ranges (state_with head.old (M.bytes mem.old)))) (state_with head.old (M.bytes mem.old)) result (state_with head.new (M.bytes mem.new)) }
    ensures kept { M.kept mem.new ≡ kept_made result (M.kept mem.old) (node_ranges (state_with head.old (M.bytes mem.old))) }
{
    match step(&mut head.cpu, mem) {
        StepEnd::Done | StepEnd::Halted(_) => StepOutcome::Step(None),
        StepEnd::Idle => StepOutcome::Idle,
        StepEnd::NoFrame => StepOutcome::NoFrame,
        StepEnd::LinkOut(request) => output(head, mem, request),
        StepEnd::LinkIn(request) => input(head, mem, request),
    }
}
