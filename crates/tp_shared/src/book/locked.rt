//! What the book's lock holds.

ghost use Rattle.std.specs.Prelude.{◌≡◌, ◌<◌, ◌≤◌, ◌+◌, ◌-◌, ◌*◌, ℕ, None, [], true, length, IfErr, MatchResult};
ghost use Rattle.tp_shared.specs.Lower.{MAX_STEPS, has_recorded_in, without_run, Added, IsNodeOf, moment_of, OpensIn, opened_acts, opened_entries, sent_in, turn_received, port_in, accepted_of};
ghost use Rattle.tp_shared.specs.Entries.{IsTurnRefusal, OpenedEntries};
ghost use Rattle.tp_shared.specs.Frozen.{frozen_in, keeps_pages};
ghost use Rattle.tp_shared.specs.Gains.{HoldNoted};
ghost use Rattle.tp_shared.specs.Positions.{IsNumberedFrom};
ghost use Rattle.tp_shared.specs.Seals.{Sealed, IsTied, KeyShows, ShowsOpen, ShowsRun};
ghost use Rattle.tp_shared.specs.Told.{told_of};
ghost use Rattle.tp_shared.specs.Holds.{IsBookOf};

use crate::book::hold::{begin, commit};
use crate::book::sights::SightRoll;
use crate::book::write::write_new;
use crate::flusher::handed::Handed;
use crate::flusher::told::Told;
use crate::naming::Naming;
use crate::nodes::place::Place;
use crate::nodes::seal::NodeSeal;
use crate::nodes::shown::Shown;
use crate::seat::Seat;
use std::marker::{Model, PhantomData};
use tp_book::{Book, Refusal};
use tp_model::Entry;
use tp_node::Ran;
use tp_ready::roll::Roll;
use tp_ready::twin::{Seal, agree, turn};
use tp_turn::{Opened, Stretch};

/// What is under the book's lock:
/// - the book, and the seal of each node;
/// - the roll of all entries since the opening;
/// - the seals of what the flusher was told and of what the host handed in, and the roll of what was seen of the book.
///
/// Contracts see the book and the roll of entries. They also see from which position on entries have their positions as numbers, and which
/// nodes have kept pages, as they recorded.
#[derive(Drop)]
pub struct Locked<J: Naming> {
    pub(crate) book: Book,
    pub(crate) seals: Vec<NodeSeal>,
    pub(crate) roll: Roll<Entry>,
    pub(crate) told: Seal<Told>,
    pub(crate) given: Seal<Handed>,
    pub(crate) sights: SightRoll<J>,
    of: PhantomData<J>,
}

impl<J: Naming> Model for Locked<J> {
    ghost use Rattle.std.specs.Prelude.{map};
    ghost use Rattle.tp_shared.specs.Frozen.{frozen_in};
    ghost use Rattle.tp_shared.specs.Seals.{Stage};
    ghost use Rattle.tp_shared.specs.Together.{AreTogether};

    ghost Value = { Stage };

    ghost view = { λ l. record { book = l.book; all = l.roll.items; numbered_from = l.told.value.numbered_from; frozen = frozen_in l.seals.items } };

    ghost invariant = { λ l. AreTogether J.roll J.first J.start J.node J.flusher J.host J.room J.accepted J.before l.book l.seals.items l.roll l.told l.given (map (λ seen. seen.value) l.sights.roll.items) };
}

impl<J: Naming> Locked<J> {
    /// Puts a book under the lock, with a seal for each node and the seals of what the flusher was told and of what the host handed in, which
    /// is nothing. The rolls of entries and of what is seen are empty.
    pub(crate) fn new(
        book: Book,
        seals: Vec<NodeSeal>,
        roll: Roll<Entry>,
        told: Seal<Told>,
        given: Seal<Handed>,
        sights: SightRoll<J>,
    ) -> Locked<J>
        requires idle { book.ready ≡ None }
        requires count { (length seals.items ≡ length J.start.nodes) × (length book.runs ≡ length J.start.nodes) × (length book.state.start.nodes ≡ length J.start.nodes) }
        requires wires { (book.state.start.wires ≡ J.start.wires) × (length J.start.wires ≡ 4 * length J.start.nodes + length J.start.ports) }
        requires sealed { Sealed J.node seals.items book }
        requires roll { (roll.name ≡ J.roll) × (roll.first ≡ J.first) × (roll.items ≡ []) }
        requires tied { IsTied J.first roll.items book }
        requires room { (book.room ≡ J.room) × (book.floor ≤ J.first - book.base) }
        requires accepted { (p : ℕ) → accepted_of (port_in book p) ≡ J.accepted p }
        requires told { (told.name ≡ J.flusher) × (told.value ≡ told_of J.before J.first (record { book = book; all = []; numbered_from = J.first; frozen = frozen_in seals.items })) }
        requires given { (given.name ≡ J.host) × (given.value.entries ≡ []) }
        requires unseen { sights.roll.items ≡ [] }
        ensures { result ≡ record { book = book; all = []; numbered_from = J.first; frozen = frozen_in seals.items } }
    {
        let _count = book.entries().len();
        Locked {
            book,
            seals,
            roll,
            told,
            given,
            sights,
            of: PhantomData,
        }
    }

    /// Gives the book.
    pub fn book(&self) -> &Book
        ensures { result.now ≡ self.now.book }
    {
        &self.book
    }

    /// Proves that the roll has all entries of the book since the opening, with the numbers from the first on. From a position on, entries
    /// have their positions as numbers. Only nodes that have recorded in the snapshot that runs have kept pages. The function does nothing.
    pub fn known(&self)
        ensures tied { IsTied J.first self.now.all self.now.book }
        ensures numbered { IsNumberedFrom self.now.numbered_from self.now.book }
        ensures frozen { (i : ℕ) → keeps_pages self.now.frozen i ≡ true → has_recorded_in self.now.book.state.snapshot i ≡ true }
        ensures nodes { length self.now.book.state.start.nodes ≡ length J.start.nodes }
        ensures ports { length self.now.book.state.ports ≡ length J.start.ports }
    {
        self.book.known();
    }

    /// Opens a node's turn in the form of the book. The node records if it is asked to, takes or receives what it may on links 0 to 3 in
    /// order, and a turn of it is reserved. Answers how it was opened. If the turn is one entry, what the node received stays on its lines,
    /// as its seal and key show.
    pub(crate) fn begin(
        &mut self,
        place: &mut Place,
        seat: &mut Seat<J>,
        number: u8,
    ) -> Result<Opened, Refusal>
        requires there { number < length J.start.nodes }
        requires named { place.old.key.name ≡ J.node number }
        requires shows { KeyShows place.old }
        ensures named { place.new.key.name ≡ place.old.key.name }
        ensures shows { MatchResult result (λ opened. ShowsOpen place.new (turn_received opened) (sent_in opened)) (λ e. KeyShows place.new) }
        ensures of { IsBookOf J.start self.old.book }
        ensures is { IsNodeOf self.old.book number place.old.node }
        ensures opens { OpensIn self.old.book.form number result (moment_of self.old.book place.old.node) (moment_of self.new.book place.new.node) }
        ensures noted { HoldNoted (OpenedEntries J.start number result) J.first self.old self.new seat.old seat.new }
        ensures refused { IfErr result IsTurnRefusal }
    {
        let Locked {
            book,
            seals,
            roll,
            ..
        } = self;
        let Place { node, key } = place;
        let here = &mut seals[number as usize];
        agree(&mut here.seal, key);
        let before = book.entries().len();
        let done = begin(book, node, number);
        let now = Shown::answered(book, node, number, &done);
        turn(&mut here.seal, key, &now);
        here.frozen = node.is_frozen();
        let Seat { slips, count, .. } = seat;
        write_new(book, before, roll, slips, count);
        done
    }

    /// Journals a node's turn by how it was opened, whatever the book's form is by now. Its key still shows the node as the book has it,
    /// and what it received since.
    pub(crate) fn commit(
        &mut self,
        place: &mut Place,
        seat: &mut Seat<J>,
        number: u8,
        opened: Opened,
        stretch: Stretch,
    ) -> Ran
        requires there { number < length J.start.nodes }
        requires named { place.old.key.name ≡ J.node number }
        requires few { stretch.ran.count ≤ MAX_STEPS }
        requires ran { ShowsRun place.old (turn_received opened) (sent_in opened) stretch.ran.count stretch.sent.items }
        ensures ran { result ≡ stretch.ran }
        ensures named { place.new.key.name ≡ place.old.key.name }
        ensures shows { KeyShows place.new }
        ensures of { IsBookOf J.start self.old.book }
        ensures node { place.new.node ≡ place.old.node }
        ensures added { Added number place.old.node.live (opened_acts number opened stretch.ran.count) (without_run self.old.book number) self.new.book }
        ensures noted { HoldNoted (λ entries. entries ≡ opened_entries number opened stretch.ran.count) J.first self.old self.new seat.old seat.new }
    {
        let Locked {
            book,
            seals,
            roll,
            ..
        } = self;
        let Place { node, key } = place;
        let here = &mut seals[number as usize];
        agree(&mut here.seal, key);
        let before = book.entries().len();
        let ran = commit(book, node, number, opened, stretch);
        let now = Shown::free(node);
        turn(&mut here.seal, key, &now);
        let Seat { slips, count, .. } = seat;
        write_new(book, before, roll, slips, count);
        ran
    }
}
