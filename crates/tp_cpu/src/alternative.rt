//! Alternatives: a process waits for the first of several partners.

ghost use Rattle.std.specs.Prelude.{◌≡◌};
ghost use Rattle.tp_cpu.specs.Lower.{with_a, without_b, is_alternative, signalled, passed_over, chosen, alt, enbs, altwt, choose, diss, kept_after, alt_ranges, enbs_ranges, altwt_ranges, choose_ranges, diss_ranges};
ghost use Rattle.tp_cpu.specs.Ends.{Does};

use crate::access::{load, store, store_all};
use crate::process::end;
use crate::queues::queue;
use crate::undone::Undone;
use crate::workspaces::{saved_at, state_at};
use tp_mem::Mem;
use tp_model::Cpu;

/// The states of an alternative: its branches are being enabled; it waits; a partner has come.
pub const ENABLING: u32 = 0x8000_0001;

pub const WAITING: u32 = 0x8000_0002;

pub const READY: u32 = 0x8000_0003;

/// The word at the workspace while no branch is chosen.
pub const NONE_CHOSEN: u32 = 0xFFFF_FFFF;

/// Whether `state` is the state of an alternative.
#[inline(always)]
pub fn is_alternative(state: u32) -> bool
    ensures { result ≡ is_alternative state }
{
    state == ENABLING || state == WAITING || state == READY
}

/// Queues the process of `descriptor` if its alternative was waiting.
#[inline(always)]
pub(crate) fn signal(state: u32, descriptor: u32, cpu: &mut Cpu)
    ensures { cpu.new ≡ signalled state descriptor cpu.old }
{
    if state == WAITING {
        queue(descriptor, cpu);
    }
}

/// Begins an alternative.
#[inline]
pub fn alt<M: Mem>(cpu: &mut Cpu, mem: &mut M) -> Result<(), Undone>
    ensures does { Does alt alt_ranges (M.kept mem.old) cpu.old (M.bytes mem.old) result cpu.new (M.bytes mem.new) }
    ensures kept { M.kept mem.new ≡ kept_after result (M.kept mem.old) (alt_ranges cpu.old (M.bytes mem.old)) }
{
    store(mem, state_at(cpu.wptr), ENABLING)
}

/// Enables a branch that waits for nobody, if its guard is true.
#[inline]
pub fn enbs<M: Mem>(cpu: &mut Cpu, mem: &mut M) -> Result<(), Undone>
    ensures does { Does enbs enbs_ranges (M.kept mem.old) cpu.old (M.bytes mem.old) result cpu.new (M.bytes mem.new) }
    ensures kept { M.kept mem.new ≡ kept_after result (M.kept mem.old) (enbs_ranges cpu.old (M.bytes mem.old)) }
{
    if cpu.regs.a == 0 {
        return Ok(());
    }
    store(mem, state_at(cpu.wptr), READY)
}

/// Waits for a partner if none has come. No branch is chosen yet.
#[inline]
pub fn altwt<M: Mem>(cpu: &mut Cpu, mem: &mut M) -> Result<(), Undone>
    ensures does { Does altwt altwt_ranges (M.kept mem.old) cpu.old (M.bytes mem.old) result cpu.new (M.bytes mem.new) }
    ensures kept { M.kept mem.new ≡ kept_after result (M.kept mem.old) (altwt_ranges cpu.old (M.bytes mem.old)) }
{
    let wptr = cpu.wptr;
    let state = load(mem, state_at(wptr))?;
    if state == READY {
        return store(mem, wptr, NONE_CHOSEN);
    }
    store_all(
        mem,
        &[
            (wptr, NONE_CHOSEN),
            (state_at(wptr), WAITING),
            (saved_at(wptr), cpu.iptr),
        ],
    )?;
    end(cpu);
    Ok(())
}

/// Puts into A whether the branch is chosen, by the word that was at the workspace.
#[inline(always)]
pub fn note_choice(word: u32, cpu: &mut Cpu)
    ensures { cpu.new ≡ chosen word cpu.old }
{
    cpu.regs.a = u32::from(word == NONE_CHOSEN);
}

/// Chooses a branch that is ready, if none is chosen.
#[inline]
pub fn choose<M: Mem>(cpu: &mut Cpu, mem: &mut M) -> Result<(), Undone>
    ensures does { Does choose choose_ranges (M.kept mem.old) cpu.old (M.bytes mem.old) result cpu.new (M.bytes mem.new) }
    ensures kept { M.kept mem.new ≡ kept_after result (M.kept mem.old) (choose_ranges cpu.old (M.bytes mem.old)) }
{
    let word = load(mem, cpu.wptr)?;
    if word == NONE_CHOSEN {
        store(mem, cpu.wptr, cpu.regs.a)?;
    }
    note_choice(word, cpu);
    Ok(())
}

/// Skips a branch that isn't ready.
#[inline(always)]
pub fn pass_over(cpu: &mut Cpu)
    ensures { cpu.new ≡ passed_over cpu.old }
{
    cpu.regs.a = 0;
}

/// Moves C into B.
#[inline(always)]
pub fn drop_b(cpu: &mut Cpu)
    ensures { cpu.new ≡ without_b cpu.old }
{
    cpu.regs.b = cpu.regs.c;
}

/// Disables a branch that waits for nobody.
#[inline]
pub fn diss<M: Mem>(cpu: &mut Cpu, mem: &mut M) -> Result<(), Undone>
    ensures does { Does diss diss_ranges (M.kept mem.old) cpu.old (M.bytes mem.old) result cpu.new (M.bytes mem.new) }
    ensures kept { M.kept mem.new ≡ kept_after result (M.kept mem.old) (diss_ranges cpu.old (M.bytes mem.old)) }
{
    if cpu.regs.b == 0 {
        drop_b(cpu);
        pass_over(cpu);
        return Ok(());
    }
    choose(cpu, mem)?;
    drop_b(cpu);
    Ok(())
}
