//! One step.

ghost use Rattle.std.specs.Prelude.{◌≡◌, Ok};
ghost use Rattle.tp_cpu.specs.Lower.{executed, instruction, idle, in_state, step_of, MakesStep, LacksFrames, kept_after, executed_ranges, instruction_ranges, idle_ranges, in_state_ranges, step_ranges};
ghost use Rattle.tp_cpu.specs.Ends.{Does};
ghost use Rattle.tp_cpu.specs.Acts.{Acts, AsksLink, WhereNoFrame, kept_acted, kept_past, fault_of};

use crate::advancing::runs;
use crate::effect::effect;
use crate::fetch::fetch;
use crate::spelling::spelling_at;
use crate::waiting::OPR;
use crate::{
    KEPT_AT, NOT_PROCESS, Undone, channel_at, dispatch_high, dispatch_low, interrupt, load, op_at,
    pass, restore,
};
use tp_mem::Mem;
use tp_model::{
    ChannelWord, Cpu, DecodeFault, Fault, InRequest, Instr, Op, OutRequest, Regs, State, StepEnd,
    Wish,
};

/// Says why a node halts at bytes that spell no instruction. Bytes that end too soon end outside memory.
#[inline(always)]
fn fault_of(fault: DecodeFault) -> Fault
    ensures { result ≡ fault_of fault }
{
    match fault {
        DecodeFault::NeedMore => Fault::BadAddress,
        DecodeFault::LongPrefix => Fault::LongPrefix,
        DecodeFault::UnknownOp => Fault::UnknownOp,
    }
}

/// Does the instruction that was read. First it counts in the slice, and the instruction pointer moves past it.
#[inline(always)]
fn execute<M: Mem>(cpu: &mut Cpu, mem: &mut M, instr: Instr) -> Result<(), Undone>
    ensures does { Does (executed (Ok instr)) (executed_ranges (Ok instr)) (M.kept mem.old) cpu.old (M.bytes mem.old) result cpu.new (M.bytes mem.new) }
    ensures kept { M.kept mem.new ≡ kept_after result (M.kept mem.old) (executed_ranges (Ok instr) cpu.old (M.bytes mem.old)) }
{
    let iptr = cpu.iptr;
    let slice = cpu.slice;
    pass(cpu, iptr.wrapping_add(u32::from(instr.len)));
    match effect(cpu, mem, instr.fun, instr.operand.cast_unsigned()) {
        Ok(()) => Ok(()),
        Err(undone) => {
            cpu.iptr = iptr;
            cpu.slice = slice;
            Err(undone)
        }
    }
}

/// Reads an instruction and does it.
#[inline(always)]
fn instruction<M: Mem>(cpu: &mut Cpu, mem: &mut M) -> Result<(), Undone>
    ensures does { Does instruction instruction_ranges (M.kept mem.old) cpu.old (M.bytes mem.old) result cpu.new (M.bytes mem.new) }
    ensures kept { M.kept mem.new ≡ kept_after result (M.kept mem.old) (instruction_ranges cpu.old (M.bytes mem.old)) }
{
    match fetch(mem, cpu.iptr) {
        Ok(instr) => execute(cpu, mem, instr),
        Err(fault) => Err(Undone::Faulty(fault_of(fault))),
    }
}

/// Finds work for an idle processor: the front high process, then the low process that was interrupted, then the front low one.
fn idle<M: Mem>(cpu: &mut Cpu, mem: &mut M) -> Option<Result<(), Undone>>
    ensures acts { Acts idle idle_ranges (M.kept mem.old) cpu.old (M.bytes mem.old) result cpu.new (M.bytes mem.new) }
    ensures kept { M.kept mem.new ≡ kept_acted result (M.kept mem.old) (idle_ranges cpu.old (M.bytes mem.old)) }
{
    if cpu.high.front != NOT_PROCESS {
        return Some(dispatch_high(cpu, mem));
    }
    match load(mem, KEPT_AT) {
        Err(undone) => Some(Err(undone)),
        Ok(NOT_PROCESS) if cpu.low.front == NOT_PROCESS => None,
        Ok(NOT_PROCESS) => Some(dispatch_low(cpu, mem)),
        Ok(kept) => Some(restore(cpu, mem, kept)),
    }
}

/// Does what the processor does in its state.
#[inline(always)]
fn act<M: Mem>(cpu: &mut Cpu, mem: &mut M) -> Option<Result<(), Undone>>
    ensures acts { Acts (λ cpu. in_state cpu.state cpu) (λ cpu. in_state_ranges cpu.state cpu) (M.kept mem.old) cpu.old (M.bytes mem.old) result cpu.new (M.bytes mem.new) }
    ensures kept { M.kept mem.new ≡ kept_acted result (M.kept mem.old) (in_state_ranges cpu.old.state cpu.old (M.bytes mem.old)) }
{
    match cpu.state {
        State::Idle => idle(cpu, mem),
        State::Low if cpu.high.front != NOT_PROCESS => Some(interrupt(cpu, mem)),
        _ => Some(instruction(cpu, mem)),
    }
}

/// Answers what a process asks of a link, if its next step is `in` at an input link's word or `out` at an output link's. That is all that
/// the step does, and the node ends it. After `None`, `act` says what the step is.
#[inline(always)]
fn asked<M: Mem>(cpu: &Cpu, mem: &M) -> Option<StepEnd>
    ensures { AsksLink (step_of cpu.now (M.bytes mem.now)) result }
{
    if !runs(cpu) {
        return None;
    }
    let Regs { a, b, c, .. } = cpu.regs;
    let word = channel_at(b);
    if matches!(word, ChannelWord::Internal) {
        return None;
    }
    let spelling = spelling_at(mem, cpu.iptr)?;
    if spelling.code != OPR {
        return None;
    }
    match (word, op_at(spelling.operand)) {
        (ChannelWord::Input(link), Some(Op::In)) => Some(StepEnd::LinkIn(InRequest {
            link,
            wish: Wish::Message {
                pointer: c,
                count: a,
            },
            next: spelling.next,
        })),
        (ChannelWord::Output(link), Some(Op::Out)) => Some(StepEnd::LinkOut(OutRequest {
            link,
            pointer: c,
            count: a,
            word: None,
            next: spelling.next,
        })),
        _ => None,
    }
}

/// Makes one step of the processor, if there is one.
#[inline(always)]
#[tactic(auto, unfolding(tp_model::specs::Step::step_of, tp_model::specs::StepWrites::step_ranges))]
pub fn step<M: Mem>(cpu: &mut Cpu, mem: &mut M) -> StepEnd
    ensures makes { MakesStep (step_of cpu.old (M.bytes mem.old)) cpu.old (M.bytes mem.old) result cpu.new (M.bytes mem.new) }
    ensures kept { M.kept mem.new ≡ kept_past result (M.kept mem.old) (step_ranges cpu.old (M.bytes mem.old)) }
    ensures refusal { WhereNoFrame result (LacksFrames (M.kept mem.old) (step_ranges cpu.old (M.bytes mem.old))) }
{
    if cpu.halt.is_some() {
        return StepEnd::Idle;
    }
    if let Some(end) = asked(cpu, mem) {
        return end;
    }
    match act(cpu, mem) {
        None => StepEnd::Idle,
        Some(Ok(())) => StepEnd::Done,
        Some(Err(Undone::NoFrame)) => StepEnd::NoFrame,
        Some(Err(Undone::Faulty(fault))) => {
            cpu.halt = Some(fault);
            StepEnd::Halted(fault)
        }
        Some(Err(Undone::Asks(request))) => StepEnd::LinkOut(request),
        Some(Err(Undone::Wants(request))) => StepEnd::LinkIn(request),
    }
}
