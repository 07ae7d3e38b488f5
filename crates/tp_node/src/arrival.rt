//! Whom a token concerns, and what that changes.

ghost use Rattle.std.specs.Prelude.{◌≡◌, ℕ, List, Some, IsSome};
ghost use Rattle.tp_node.specs.Lower.{bad_address, wake, tell, NodeState, wake_ranges, tell_ranges, LacksFrames};
ghost use Rattle.tp_node.specs.First.{GoesWith, first_stored, then_put};
ghost use Rattle.tp_node.specs.Hears.{Hears, with_both};
ghost use Rattle.tp_node.specs.LinkEnds.{kept_done};

use crate::fault::NoFrame;
use crate::first::First;
use tp_cpu::{ENABLING, READY, WAITING, queue, queue_write, state_at, workspace};
use tp_mem::Mem;
use tp_model::{Cpu, Fault, News};

/// Halts a node that runs, since a process is outside memory.
fn halt_outside(cpu: &mut Cpu)
    ensures { (node : NodeState) (memory : List ℕ) → bad_address (with_both cpu.old memory node) ≡ with_both cpu.new memory node }
{
    if cpu.halt.is_none() {
        cpu.halt = Some(Fault::BadAddress);
    }
}

/// Queues the process of a descriptor, after what the token puts into memory.
#[inline(always)]
#[tactic(auto, using(crate::proofs::FirstStored::word_behind))]
fn wake<M: Mem>(cpu: &mut Cpu, mem: &mut M, first: First, descriptor: u32) -> Result<(), NoFrame>
    requires { IsSome (first_stored first (M.bytes mem.old)) }
    ensures hears { Hears (wake descriptor) (first_stored first (M.bytes mem.old)) (LacksFrames (M.kept mem.old) (then_put first (M.bytes mem.old) (wake_ranges descriptor cpu.old))) cpu.old (M.bytes mem.old) result cpu.new (M.bytes mem.new) }
    ensures kept { M.kept mem.new ≡ kept_done result (M.kept mem.old) (then_put first (M.bytes mem.old) (wake_ranges descriptor cpu.old)) }
{
    // Memory has whole words: its length says so.
    let _len = mem.len();
    match queue_write(descriptor, cpu) {
        None => {
            first.store(mem, &[])?;
            queue(descriptor, cpu);
            Ok(())
        }
        Some(link) if mem.read_word(link.0).is_some() => {
            first.store(mem, &[link])?;
            queue(descriptor, cpu);
            Ok(())
        }
        Some(_) => {
            first.store(mem, &[])?;
            halt_outside(cpu);
            Ok(())
        }
    }
}

/// Tells the alternative of a descriptor that a partner has come.
#[tactic(auto, using(crate::proofs::FirstStored::word_behind))]
fn signal<M: Mem>(cpu: &mut Cpu, mem: &mut M, descriptor: u32) -> Result<(), NoFrame>
    ensures hears { Hears (tell (News.Alternative descriptor)) (Some (M.bytes mem.old)) (LacksFrames (M.kept mem.old) (tell_ranges (News.Alternative descriptor) cpu.old (M.bytes mem.old))) cpu.old (M.bytes mem.old) result cpu.new (M.bytes mem.new) }
    ensures kept { M.kept mem.new ≡ kept_done result (M.kept mem.old) (tell_ranges (News.Alternative descriptor) cpu.old (M.bytes mem.old)) }
{
    let address = state_at(workspace(descriptor));
    let ready = First::Word {
        address,
        word: READY,
    };
    match mem.read_word(address) {
        None => {
            halt_outside(cpu);
            Ok(())
        }
        Some(WAITING) => wake(cpu, mem, ready, descriptor),
        Some(ENABLING) => ready.store(mem, &[]),
        Some(_) => Ok(()),
    }
}

/// Puts into memory what the token does, and tells whom it concerns.
#[inline(always)]
pub(crate) fn tell<M: Mem>(
    cpu: &mut Cpu,
    mem: &mut M,
    first: First,
    news: News,
) -> Result<(), NoFrame>
    requires inside { IsSome (first_stored first (M.bytes mem.old)) }
    requires alone { GoesWith first news }
    ensures hears { Hears (tell news) (first_stored first (M.bytes mem.old)) (LacksFrames (M.kept mem.old) (then_put first (M.bytes mem.old) (tell_ranges news cpu.old))) cpu.old (M.bytes mem.old) result cpu.new (M.bytes mem.new) }
    ensures kept { M.kept mem.new ≡ kept_done result (M.kept mem.old) (then_put first (M.bytes mem.old) (tell_ranges news cpu.old)) }
{
    match news {
        News::Nobody => first.store(mem, &[]),
        News::Process(descriptor) => wake(cpu, mem, first, descriptor),
        News::Alternative(descriptor) => signal(cpu, mem, descriptor),
    }
}
