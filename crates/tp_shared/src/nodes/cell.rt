//! The nodes under one lock, and their turns.

ghost use Rattle.std.specs.Prelude.{◌≡◌, ◌<◌, ◌≤◌, ◌%◌, length, IfErr, MatchResult};
ghost use Rattle.tp_shared.specs.Lower.{MAX_STEPS, opened_entries, sent_in, turn_received};
ghost use Rattle.tp_shared.specs.declared.nodes.cells.TheConstants.{CELLS};
ghost use Rattle.tp_shared.specs.Cells.{AreOfCell};
ghost use Rattle.tp_shared.specs.Entries.{IsTurnRefusal, OpenedEntries, TookAlone};
ghost use Rattle.tp_shared.specs.Gains.{Gained};
ghost use Rattle.tp_shared.specs.Holds.{in_hand};
ghost use Rattle.tp_shared.specs.Seals.{KeyShows, ShowsOpen, ShowsRun};
ghost use Rattle.tp_shared.specs.NodeTurned.{NodeTurned};
ghost use Rattle.tp_shared.specs.RecordedIn.{RecordedIn};
ghost use Rattle.tp_shared.specs.TurnsMade.{TurnBrokenOff, TurnCommitted, TurnOpened, TurnMade};

use crate::book::locked::Locked;
use crate::book::sights::Sights;
use crate::gate::{COMMITTED, Gate, NODE_LOCKED, RUN_DONE};
use crate::naming::Naming;
use crate::nodes::cells::CELLS;
use crate::nodes::node_turn::NodeTurn;
use crate::nodes::place::Place;
use crate::nodes::recorded::Recorded;
use crate::seat::Seat;
use crate::soon::lock_soon;
use std::marker::{Model, PhantomData};
use std::sync::{Mutex, Wait};
use tp_book::Refusal;
use tp_node::{Ran, Runs};
use tp_turn::{Opened, Stretch};

/// Every sixteenth node, from the node `I` on.
#[derive(Drop)]
pub struct Cell<const I: usize, J: Naming> {
    pub(crate) places: Vec<Place>,
    of: PhantomData<J>,
}

impl<const I: usize, J: Naming> Model for Cell<I, J> {
    ghost use Rattle.std.specs.Prelude.{List, length};
    ghost use Rattle.tp_shared.specs.declared.nodes.place.Place.{Place};
    ghost use Rattle.tp_shared.specs.Cells.{AreOfCell};

    ghost Value = { List Place };

    ghost view = { λ c. c.places.items };

    ghost invariant = { λ c. AreOfCell I J.node (length J.start.nodes) c.places.items };
}

// Does what a node's turn does in its first hold of the book's lock.
fn begin<J: Naming, R: Wait>(
    rt: &R,
    book: &Mutex<Locked<J>>,
    place: &mut Place,
    seat: &mut Seat<J>,
    seen: &mut Sights<J>,
    number: u8,
) -> Result<Opened, Refusal>
    requires there { number < length J.start.nodes }
    requires named { place.old.key.name ≡ J.node number }
    requires shows { KeyShows place.old }
    ensures named { place.new.key.name ≡ place.old.key.name }
    ensures shows { MatchResult result (λ opened. ShowsOpen place.new (turn_received opened) (sent_in opened)) (λ e. KeyShows place.new) }
    ensures opened { TurnOpened J.start number result place.old.node place.new.node (in_hand seen.old seat.old) (in_hand seen.new seat.new) }
    ensures gained { Gained (OpenedEntries J.start number result) seat.old seat.new }
    ensures refused { IfErr result IsTurnRefusal }
{
    let mut held = lock_soon(rt, book);
    held.begin_seen(place, seat, seen, number)
}

// Does what a node's turn does in its second hold of the book's lock.
fn commit<J: Naming, R: Wait>(
    rt: &R,
    book: &Mutex<Locked<J>>,
    place: &mut Place,
    seat: &mut Seat<J>,
    seen: &mut Sights<J>,
    number: u8,
    opened: Opened,
    stretch: Stretch,
) -> Ran
    requires there { number < length J.start.nodes }
    requires named { place.old.key.name ≡ J.node number }
    requires few { stretch.ran.count ≤ MAX_STEPS }
    requires ran { ShowsRun place.old (turn_received opened) (sent_in opened) stretch.ran.count stretch.sent.items }
    ensures ran { result ≡ stretch.ran }
    ensures named { place.new.key.name ≡ place.old.key.name }
    ensures shows { KeyShows place.new }
    ensures committed { TurnCommitted J.start number opened stretch.ran.count place.old.node (in_hand seen.old seat.old) (in_hand seen.new seat.new) }
    ensures gained { Gained (λ entries. entries ≡ opened_entries number opened stretch.ran.count) seat.old seat.new }
{
    let mut held = lock_soon(rt, book);
    held.commit_seen(place, seat, seen, number, opened, stretch)
}

// Makes a turn of a node whose lock is held: opens it in one hold of the book's lock, lets the node run, and commits it in another hold.
fn turn_of<J: Naming, G: Gate, R: Wait>(
    rt: &R,
    gate: &G,
    book: &Mutex<Locked<J>>,
    place: &mut Place,
    seat: &mut Seat<J>,
    seen: &mut Sights<J>,
    runs: &mut Runs,
    number: u8,
    quantum: u16,
) -> Result<NodeTurn, Refusal>
    requires quantum { quantum ≤ MAX_STEPS }
    requires there { number < length J.start.nodes }
    requires named { place.old.key.name ≡ J.node number }
    requires shows { KeyShows place.old }
    ensures named { place.new.key.name ≡ place.old.key.name }
    ensures shows { KeyShows place.new }
    ensures turned { MatchResult result (λ turn. NodeTurned J.start number quantum turn seat.old seat.new) (λ e. Gained (TookAlone J.start number) seat.old seat.new) }
    ensures went { MatchResult result (λ turn. TurnMade J.start number quantum turn (in_hand seen.old seat.old) (in_hand seen.new seat.new)) (λ e. TurnBrokenOff J.start number e (in_hand seen.old seat.old) (in_hand seen.new seat.new)) }
    ensures refused { IfErr result IsTurnRefusal }
{
    gate.at(number, NODE_LOCKED);
    let opened = begin(rt, book, place, seat, seen, number)?;
    let taken = opened.taken();
    let stretch = place.run(runs, quantum);
    gate.at(number, RUN_DONE);
    let ran = commit(rt, book, place, seat, seen, number, opened, stretch);
    gate.at(number, COMMITTED);
    Ok(NodeTurn { taken, ran })
}

// Lets a node whose lock is held record, if it is asked to.
fn record_of<J: Naming, R: Wait>(
    rt: &R,
    book: &Mutex<Locked<J>>,
    place: &mut Place,
    number: u8,
) -> Recorded<J>
    requires there { number < length J.start.nodes }
    requires named { place.old.key.name ≡ J.node number }
    requires shows { KeyShows place.old }
    ensures named { place.new.key.name ≡ place.old.key.name }
    ensures shows { KeyShows place.new }
    ensures recorded { RecordedIn J.start number result.seen result.done }
{
    let mut held = lock_soon(rt, book);
    held.record_seen(place, number)
}

impl<const I: usize, J: Naming> Cell<I, J> {
    pub(crate) fn new(places: Vec<Place>) -> Cell<I, J>
        requires { AreOfCell I J.node (length J.start.nodes) places.items }
    {
        Cell {
            places,
            of: PhantomData,
        }
    }

    /// Makes a turn of the node `number` of this cell.
    pub(crate) fn turn<G: Gate, R: Wait>(
        &mut self,
        rt: &R,
        gate: &G,
        book: &Mutex<Locked<J>>,
        seat: &mut Seat<J>,
        seen: &mut Sights<J>,
        runs: &mut Runs,
        number: u8,
        quantum: u16,
    ) -> Result<NodeTurn, Refusal>
        requires quantum { quantum ≤ MAX_STEPS }
        requires there { number < length J.start.nodes }
        requires here { number % CELLS ≡ I }
        ensures turned { MatchResult result (λ turn. NodeTurned J.start number quantum turn seat.old seat.new) (λ e. Gained (TookAlone J.start number) seat.old seat.new) }
        ensures went { MatchResult result (λ turn. TurnMade J.start number quantum turn (in_hand seen.old seat.old) (in_hand seen.new seat.new)) (λ e. TurnBrokenOff J.start number e (in_hand seen.old seat.old) (in_hand seen.new seat.new)) }
        ensures refused { IfErr result IsTurnRefusal }
    {
        let Cell { places, .. } = self;
        let place = &mut places[number as usize / CELLS];
        turn_of(rt, gate, book, place, seat, seen, runs, number, quantum)
    }

    /// Lets the node `number` of this cell record, if it is asked to.
    pub(crate) fn record<R: Wait>(
        &mut self,
        rt: &R,
        book: &Mutex<Locked<J>>,
        number: u8,
    ) -> Recorded<J>
        requires there { number < length J.start.nodes }
        requires here { number % CELLS ≡ I }
        ensures recorded { RecordedIn J.start number result.seen result.done }
    {
        let Cell { places, .. } = self;
        let place = &mut places[number as usize / CELLS];
        record_of(rt, book, place, number)
    }
}
