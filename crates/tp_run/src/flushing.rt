//! The flusher's thread, and flushes after it.

ghost use Rattle.std.specs.Prelude.{◌≡◌, ◌≤◌, Err, IsOk, IfOk, IfErr, OnOk, MatchResult};
ghost use Rattle.tp_run.specs.Lower.{AreTrue, WereTrue, Resting, Began, IsSameProcess, Walked};
ghost use Rattle.tp_run.specs.Failures.{CountsFailures, IsFlushFault, flush_fault_of};

use crate::fault::RunFault;
use crate::watch::Watch;
use std::alloc::Global;
use std::sync::Wait;
use tp_disk::Disk;
use tp_flush::{FlushFault, Flushed, Flusher};
use tp_model::limits::MAX_PAGES;
use tp_shared::{Naming, Shared};

/// Makes the workers count the entries since the kept cut anew, if the flusher's turn `done` switched the areas.
fn tell_of<J: Naming>(watch: &Watch, done: &Result<Flushed<J>, FlushFault>) {
    if let Ok(Flushed { switched: true, .. }) = done {
        watch.count_anew();
    }
}

/// Makes the flusher's turns while workers make theirs, until the workers have ended. Before each turn it waits until something may have been
/// journalled: it sleeps for a bounded time and checks, and no worker's turn wakes it. If a turn runs out of memory, the next turn does its work,
/// too. Once a call of the device has failed, turns do nothing. A turn copies about one frozen image of the largest nodes, so that new entries
/// needn't wait until all images are copied. Once the workers have ended, a turn copies all that it may.
pub(crate) fn flush_meanwhile<J: Naming, D: Disk, R: Wait>(
    rt: &R,
    alloc: Global,
    shared: &Shared<J>,
    watch: &Watch,
    first: Flusher<J, D>,
) -> Flusher<J, D>
    ensures premise { WereTrue first.reads result.reads }
    ensures walks { AreTrue result.reads → Began J.formatted J.before first.opened → Walked first result }
    ensures process { IsSameProcess first result }
    ensures failures { CountsFailures first result }
{
    first.known();
    let mut flusher = first;
    flusher.copy_at_most(MAX_PAGES);
    let mut seen = 0;
    for _ in rt.forever() {
        let Some(news) = watch.wait(rt, seen) else {
            break;
        };
        seen = news;
        let done = flusher.turn(rt, alloc, shared);
        tell_of(watch, &done);
    }
    flusher.copy_at_most(usize::MAX);
    flusher
}

/// Gives the fault of a run whose flush was refused: `given` if the device has failed. `AreaFull` doesn't occur, since an area has room for all that
/// the book has.
fn fault_in(fault: FlushFault, given: RunFault) -> RunFault
    ensures { result ≡ flush_fault_of given fault }
{
    match fault {
        FlushFault::DeviceFailed | FlushFault::StoreBroken => given,
        FlushFault::Memory => RunFault::Memory,
        FlushFault::AreaFull => RunFault::Unaccounted,
    }
}

/// Gives what a flush answers, if its turn answered `turned`: `Ok` if the turn was done; else the turn's fault, which is `given` if the device has
/// failed.
fn outcome_of<J: Naming>(
    turned: Result<Flushed<J>, FlushFault>,
    given: RunFault,
) -> Result<(), RunFault>
    ensures { MatchResult turned (λ flushed. IsOk result) (λ refused. result ≡ Err (flush_fault_of given refused)) }
{
    match turned {
        Ok(_) => Ok(()),
        Err(refused) => Err(fault_in(refused, given)),
    }
}

/// Flushes once. Fails with `fault` if the device failed, and else with `Memory` or `Unaccounted`.
fn flush<J: Naming, D: Disk, R: Wait>(
    rt: &R,
    alloc: Global,
    shared: &Shared<J>,
    flusher: &mut Flusher<J, D>,
    fault: RunFault,
) -> Result<(), RunFault>
    ensures premise { WereTrue flusher.old.reads flusher.new.reads }
    ensures walks { AreTrue flusher.new.reads → Began J.formatted J.before flusher.old.opened → Walked flusher.old flusher.new }
    ensures process { IsSameProcess flusher.old flusher.new }
    ensures failures { CountsFailures flusher.old flusher.new }
    ensures rests { OnOk result (flusher.new.world.at ≡ Resting) }
    ensures refused { IfErr result (IsFlushFault fault flusher.new.world.at) }
{
    outcome_of(flusher.turn(rt, alloc, shared), fault)
}

/// Flushes, and checks that all entries below `number` are stored; `number` is the next one after a receipt. Answers the mark. Fails with `fault` if
/// the device failed, and else with `Memory` or `Unaccounted`.
pub(crate) fn flush_upto<J: Naming, D: Disk, R: Wait>(
    rt: &R,
    alloc: Global,
    shared: &Shared<J>,
    flusher: &mut Flusher<J, D>,
    number: u64,
    fault: RunFault,
) -> Result<u64, RunFault>
    ensures premise { WereTrue flusher.old.reads flusher.new.reads }
    ensures walks { AreTrue flusher.new.reads → Began J.formatted J.before flusher.old.opened → Walked flusher.old flusher.new }
    ensures process { IsSameProcess flusher.old flusher.new }
    ensures failures { CountsFailures flusher.old flusher.new }
    ensures rests { OnOk result (flusher.new.world.at ≡ Resting) }
    ensures stored { IfOk result (λ mark. (mark ≡ flusher.new.world.mark) × (number ≤ mark)) }
    ensures refused { IfErr result (IsFlushFault fault flusher.new.world.at) }
{
    flush(rt, alloc, shared, flusher, fault)?;
    let mark = flusher.mark();
    // A flush that was done copied all that was journalled before it, so this doesn't occur.
    if mark < number {
        return Err(RunFault::Unaccounted);
    }
    Ok(mark)
}
