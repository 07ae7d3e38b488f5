//! How a process waits as the first at a channel, without the detour over why it doesn't.

ghost use Rattle.std.specs.Prelude.{◌≡◌};
ghost use Rattle.tp_cpu.specs.Lower.{waits_first, fun_of, operate, waits_first_ranges, operate_ranges};
ghost use Rattle.tp_cpu.specs.Advance.{WasDone, LeadsByOne, effect_at, ranges_at};

use crate::advancing::runs;
use crate::spelling::spelling_at;
use crate::{NOT_PROCESS, channel_at, descriptor_of, end, op_at, pass, saved_at, state_at};
use tp_mem::Mem;
use tp_model::{ChannelWord, Cpu, Op, Regs};

/// The code of `opr`.
pub(crate) const OPR: u8 = 0xF;

/// Waits as the first process at the channel B: count A, pointer C.
#[inline(always)]
fn wait_first<M: Mem>(cpu: &mut Cpu, mem: &mut M) -> bool
    ensures { WasDone (waits_first cpu.old.regs.b cpu.old.regs.c cpu.old.regs.a) (waits_first_ranges cpu.old.regs.b cpu.old.regs.c) (M.kept mem.old) cpu.old (M.bytes mem.old) result cpu.new (M.bytes mem.new) (M.kept mem.new) }
{
    let Regs { a, b, c, .. } = cpu.regs;
    if !mem.is_inside(c, a) {
        return false;
    }
    let Ok(()) = mem.write_words(&[
        (b, descriptor_of(cpu)),
        (state_at(cpu.wptr), c),
        (saved_at(cpu.wptr), cpu.iptr),
    ]) else {
        return false;
    };
    end(cpu);
    true
}

/// Does `in` or `out` if no process is at the channel: count A, channel B, pointer C.
#[inline(always)]
fn wait_at_channel<M: Mem>(cpu: &mut Cpu, mem: &mut M) -> bool
    ensures input { WasDone (operate Op.In) (operate_ranges Op.In) (M.kept mem.old) cpu.old (M.bytes mem.old) result cpu.new (M.bytes mem.new) (M.kept mem.new) }
    ensures output { WasDone (operate Op.Out) (operate_ranges Op.Out) (M.kept mem.old) cpu.old (M.bytes mem.old) result cpu.new (M.bytes mem.new) (M.kept mem.new) }
{
    let channel = cpu.regs.b;
    let ChannelWord::Internal = channel_at(channel) else {
        return false;
    };
    let Some(NOT_PROCESS) = mem.read_word(channel) else {
        return false;
    };
    wait_first(cpu, mem)
}

/// Does the function of a code with its operand, if it is an operation by which a process waits at a channel.
#[inline(always)]
fn wait_by<M: Mem>(cpu: &mut Cpu, mem: &mut M, code: u8, operand: u32) -> bool
    ensures { WasDone (effect_at (fun_of code) operand) (ranges_at (fun_of code) operand) (M.kept mem.old) cpu.old (M.bytes mem.old) result cpu.new (M.bytes mem.new) (M.kept mem.new) }
{
    if code != OPR {
        return false;
    }
    match op_at(operand) {
        Some(Op::In | Op::Out) => wait_at_channel(cpu, mem),
        _ => false,
    }
}

/// Makes one step, if it is an operation by which a process waits at a channel, and answers whether it is. If it isn't, nothing changes.
#[inline]
pub(crate) fn wait<M: Mem>(cpu: &mut Cpu, mem: &mut M) -> bool
    ensures { LeadsByOne (record { cpu = cpu.old; memory = M.bytes mem.old; kept = M.kept mem.old }) result (record { cpu = cpu.new; memory = M.bytes mem.new; kept = M.kept mem.new }) }
{
    if !runs(cpu) {
        return false;
    }
    let Some(spelling) = spelling_at(mem, cpu.iptr) else {
        return false;
    };
    let iptr = cpu.iptr;
    let slice = cpu.slice;
    pass(cpu, spelling.next);
    if wait_by(cpu, mem, spelling.code, spelling.operand) {
        return true;
    }
    cpu.iptr = iptr;
    cpu.slice = slice;
    false
}
