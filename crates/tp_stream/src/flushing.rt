//! Flushes of a stream.

ghost use Rattle.std.specs.Prelude.{◌≡◌, ◌≤◌, true, false, length, IfOk, IfErr};
ghost use Rattle.tp_stream.specs.Lower.{AreTrue, WereTrue, Resting, Began, IsSameProcess, Walked, plain_network, world_of};
ghost use Rattle.tp_stream.specs.Accounted.{AreAllSlips};
ghost use Rattle.tp_stream.specs.Failures.{FailedWhere, answer_failed, flushing_fault};
ghost use Rattle.tp_stream.specs.Put.{EndsPut, HasHaltedAs};
ghost use Rattle.tp_stream.specs.Streamed.{CameOfFlush};

use crate::accounting::are_accounted;
use crate::fault::StreamFault;
use crate::left::are_put;
use std::alloc::Global;
use std::sync::Wait;
use tp_disk::Disk;
use tp_flush::{FlushFault, Flusher};
use tp_shared::{HostKey, Locked, Naming, Seat, Shared};
use tp_stream_files::{Ending, Output, Sink};

/// Gives the stream's fault for a fault of the flusher's turn.
fn fault_in(fault: FlushFault) -> StreamFault
    ensures value { result ≡ flushing_fault fault }
    ensures begun { CameOfFlush result }
{
    match fault {
        FlushFault::DeviceFailed | FlushFault::StoreBroken => StreamFault::FlushFailed,
        FlushFault::Memory => StreamFault::Memory,
        FlushFault::AreaFull => StreamFault::NotStored,
    }
}

/// Flushes once. Answers the mark.
pub(crate) fn flush<J: Naming, D: Disk, R: Wait>(
    rt: &R,
    alloc: Global,
    shared: &Shared<J>,
    flusher: &mut Flusher<J, D>,
) -> Result<u64, StreamFault>
    ensures premise { WereTrue flusher.old.reads flusher.new.reads }
    ensures walks { AreTrue flusher.new.reads → Began J.formatted J.before flusher.old.opened → Walked flusher.old flusher.new }
    ensures process { IsSameProcess flusher.old flusher.new }
    ensures mark { IfOk result (λ mark. mark ≡ flusher.new.world.mark) }
    ensures failures { flusher.old.world.at ≡ Resting → FailedWhere (answer_failed result) flusher.old flusher.new }
    ensures begun { IfErr result CameOfFlush }
{
    match flusher.turn(rt, alloc, shared) {
        Ok(flushed) => Ok(flushed.mark),
        Err(fault) => Err(fault_in(fault)),
    }
}

/// Whether a node has halted, if a stream that ends as `why` says ends by that. The book's lock is held, and no other thread makes turns.
fn has_halted_as<J: Naming, R: Wait>(
    rt: &R,
    shared: &Shared<J>,
    held: &mut Locked<J>,
    why: Ending,
) -> bool
    ensures same { held.new ≡ held.old }
    ensures halted { result ≡ true → HasHaltedAs why (plain_network (world_of held.old.book).live) }
{
    match why {
        Ending::Halted => shared.has_halted(rt, held),
        Ending::Quiet | Ending::Turns | Ending::Gone | Ending::Stopped => true,
    }
}

/// Gives the number that the next entry gets, under the book's lock. Fails with `NotStored` unless the flusher has stored all entries below that
/// number, no output is left that a stream has to put if it ends as `why` says, a node has halted if that is why it ends, and `all` has the slips of all
/// entries from `first` on. Its journal then has no more entries.
fn last_under<J: Naming, D: Disk, S: Sink, R: Wait>(
    rt: &R,
    shared: &Shared<J>,
    held: &mut Locked<J>,
    flusher: &mut Flusher<J, D>,
    why: Ending,
    outputs: &[Output<S>],
    first: u64,
    all: &mut Seat<J>,
    host: &mut HostKey<J>,
) -> Result<u64, StreamFault>
    requires first { first ≡ J.first }
    ensures same { (flusher.new ≡ flusher.old) × (all.new ≡ all.old) × (host.new ≡ host.old) }
    ensures stored { IfOk result (λ next. next ≤ flusher.old.world.mark) }
    ensures last { AreTrue flusher.new.reads → Began J.formatted J.before flusher.old.opened → IfOk result (λ next. next ≡ length flusher.old.world.journal) }
    ensures put { AreTrue flusher.new.reads → Began J.formatted J.before flusher.old.opened
        → IfOk result (λ next. EndsPut J.formatted flusher.old.world.journal why outputs.now) }
    ensures all { AreTrue flusher.new.reads → Began J.formatted J.before flusher.old.opened
        → IfOk result (λ next. AreAllSlips J.first next flusher.old.world.journal all.old host.old) }
    ensures unfailed { answer_failed result ≡ false }
    ensures begun { IfErr result CameOfFlush }
{
    flusher.settle_book(held);
    let (next, mark) = (held.book().next(), flusher.mark());
    if mark < next {
        return Err(StreamFault::NotStored);
    }
    if !are_put(why, held.book(), outputs) {
        return Err(StreamFault::NotStored);
    }
    if !has_halted_as(rt, shared, held, why) {
        return Err(StreamFault::NotStored);
    }
    if !are_accounted(held, flusher, first, all, host) {
        return Err(StreamFault::NotStored);
    }
    Ok(next)
}

/// Takes the book's lock, and gives that number as `last_under` does.
fn last_of<J: Naming, D: Disk, S: Sink, R: Wait>(
    rt: &R,
    shared: &Shared<J>,
    flusher: &mut Flusher<J, D>,
    why: Ending,
    outputs: &[Output<S>],
    first: u64,
    all: &mut Seat<J>,
    host: &mut HostKey<J>,
) -> Result<u64, StreamFault>
    requires first { first ≡ J.first }
    ensures same { (flusher.new ≡ flusher.old) × (all.new ≡ all.old) × (host.new ≡ host.old) }
    ensures stored { IfOk result (λ next. next ≤ flusher.old.world.mark) }
    ensures last { AreTrue flusher.new.reads → Began J.formatted J.before flusher.old.opened → IfOk result (λ next. next ≡ length flusher.old.world.journal) }
    ensures put { AreTrue flusher.new.reads → Began J.formatted J.before flusher.old.opened
        → IfOk result (λ next. EndsPut J.formatted flusher.old.world.journal why outputs.now) }
    ensures all { AreTrue flusher.new.reads → Began J.formatted J.before flusher.old.opened
        → IfOk result (λ next. AreAllSlips J.first next flusher.old.world.journal all.old host.old) }
    ensures unfailed { answer_failed result ≡ false }
    ensures begun { IfErr result CameOfFlush }
{
    let mut held = shared.book().lock(rt);
    last_under(
        rt, shared, &mut held, flusher, why, outputs, first, all, host,
    )
}

/// Makes the last flush. Answers the number that the next entry gets. All entries below it are then stored, the flusher's journal has no more, no output
/// is left that a stream has to put if it ends as `why` says, a node has halted if that is why it ends, and `all` has the slips of all entries from
/// `first` on. Fails with `NotStored` if that
/// isn't so, or as the flush fails.
pub(crate) fn finish<J: Naming, D: Disk, S: Sink, R: Wait>(
    rt: &R,
    alloc: Global,
    shared: &Shared<J>,
    flusher: &mut Flusher<J, D>,
    why: Ending,
    outputs: &[Output<S>],
    first: u64,
    all: &mut Seat<J>,
    host: &mut HostKey<J>,
) -> Result<u64, StreamFault>
    requires first { first ≡ J.first }
    ensures premise { WereTrue flusher.old.reads flusher.new.reads }
    ensures walks { AreTrue flusher.new.reads → Began J.formatted J.before flusher.old.opened → Walked flusher.old flusher.new }
    ensures process { IsSameProcess flusher.old flusher.new }
    ensures stored { IfOk result (λ next. next ≤ flusher.new.world.mark) }
    ensures last { AreTrue flusher.new.reads → Began J.formatted J.before flusher.old.opened → IfOk result (λ next. next ≡ length flusher.new.world.journal) }
    ensures put { AreTrue flusher.new.reads → Began J.formatted J.before flusher.old.opened
        → IfOk result (λ next. EndsPut J.formatted flusher.new.world.journal why outputs.now) }
    ensures all { AreTrue flusher.new.reads → Began J.formatted J.before flusher.old.opened
        → IfOk result (λ next. AreAllSlips J.first next flusher.new.world.journal all.old host.old) }
    ensures same { (all.new ≡ all.old) × (host.new ≡ host.old) }
    ensures failures { flusher.old.world.at ≡ Resting → FailedWhere (answer_failed result) flusher.old flusher.new }
    ensures begun { IfErr result CameOfFlush }
{
    let _mark = flush(rt, alloc, shared, flusher)?;
    last_of(rt, shared, flusher, why, outputs, first, all, host)
}
