//! Turns that bring a snapshot to its end when the journal has no room for others.

ghost use Rattle.std.specs.Prelude.{◌≡◌, OnOk, IfErr};
ghost use Rattle.tp_stream.specs.Accounted.{MadeByTurns};
ghost use Rattle.tp_stream.specs.Streamed.{CameOfTurns};

use crate::fault::StreamFault;
use crate::rounds::{begin_where_due, make_turn};
use crate::turns::Turns;
use std::alloc::Global;
use std::sync::Wait;
use tp_book::Refusal;
use tp_node::Runs;
use tp_shared::{Naming, Seat, Shared};

/// How many times each process settles. No node runs meanwhile, so a line has at most one Data and one Ack before its Marker.
const SETTLES: u8 = 4;

/// Begins a snapshot, under the book's lock, if none runs.
fn begin_now<J: Naming, R: Wait>(rt: &R, alloc: Global, shared: &Shared<J>) {
    let mut held = shared.book().lock(rt);
    held.known();
    let _begun = begin_where_due(&mut held, alloc, 0);
}

/// Makes a turn of no steps for each process: it records, takes its tokens and closes its lines. Fails with `NotStored` if the store is broken.
fn settle_once<J: Naming, R: Wait>(
    rt: &R,
    shared: &Shared<J>,
    seat: &mut Seat<J>,
    runs: &mut Runs,
) -> Result<(), StreamFault>
    ensures begun { IfErr result CameOfTurns }
    ensures made { MadeByTurns J.start seat.old → MadeByTurns J.start seat.new }
{
    for whose in 0..=shared.nodes() {
        match make_turn(rt, shared, seat, runs, whose, 0) {
            Err(Refusal::StoreBroken) => return Err(StreamFault::NotStored),
            Ok(_) | Err(_) => {}
        }
    }
    Ok(())
}

/// Brings a snapshot to its end without running a node. Fails with `JournalFull` if that was tried in vain too often, and with `NotStored` if the
/// store is broken.
pub(crate) fn settle<J: Naming, R: Wait>(
    rt: &R,
    alloc: Global,
    shared: &Shared<J>,
    seat: &mut Seat<J>,
    runs: &mut Runs,
    turns: &mut Turns,
) -> Result<(), StreamFault>
    ensures whose { turns.new.whose ≡ turns.old.whose }
    ensures idle { OnOk result (turns.new.idle ≡ 0) }
    ensures made { turns.new.made ≡ turns.old.made }
    ensures busy { turns.new.is_busy ≡ turns.old.is_busy }
    ensures begun { IfErr result CameOfTurns }
    ensures turns { MadeByTurns J.start seat.old → MadeByTurns J.start seat.new }
{
    if !turns.may_settle() {
        return Err(StreamFault::JournalFull);
    }
    turns.settle();
    begin_now(rt, alloc, shared);
    for _ in 0..SETTLES {
        settle_once(rt, shared, seat, runs)?;
    }
    Ok(())
}
