//! All that threads share.

ghost use Rattle.std.specs.Prelude.{◌≡◌, ◌<◌, ◌≤◌, [], length, IfErr, MatchResult};
ghost use Rattle.tp_model.specs.declared.limits.TheConstants.{MAX_STEPS};
ghost use Rattle.tp_shared.specs.Entries.{IsTurnRefusal, CountedTakes, AreTakes, TakesOf, TookAlone};
ghost use Rattle.tp_shared.specs.Frozen.{frozen_in};
ghost use Rattle.tp_shared.specs.Gains.{Gained};
ghost use Rattle.tp_shared.specs.Holds.{in_hand};
ghost use Rattle.tp_shared.specs.Named.{Names};
ghost use Rattle.tp_shared.specs.RecordedIn.{RecordedIn};
ghost use Rattle.tp_shared.specs.Told.{told_of};
ghost use Rattle.tp_shared.specs.NodeTurned.{NodeTurned};
ghost use Rattle.tp_shared.specs.TurnsMade.{TurnBrokenOff, HostTurnMade, TurnMade};

use crate::book::locked::Locked;
use crate::book::sights::{SightRoll, Sights};
use crate::flusher::told::Told;
use crate::gate::{COMMITTED, Gate};
use crate::host_key::HostKey;
use crate::naming::Naming;
use crate::nodes::cells::{CELLS, ROW, in_row};
use crate::nodes::node_turn::NodeTurn;
use crate::nodes::recorded::Recorded;
use crate::nodes::row::Row;
use crate::parts::Parts;
use crate::seat::Seat;
use crate::soon::lock_soon;
use std::sync::{Mutex, Wait};
use tp_book::Refusal;
use tp_node::Runs;
use tp_ready::Mark;
use tp_ready::twin::{Key, turn};

// Does what the host's turn does in its hold of the book's lock.
fn host_hold<J: Naming, R: Wait>(
    rt: &R,
    book: &Mutex<Locked<J>>,
    seat: &mut Seat<J>,
    seen: &mut Sights<J>,
) -> Result<u64, Refusal>
    ensures gained { Gained (TakesOf J.start (length J.start.nodes) result) seat.old seat.new }
    ensures went { HostTurnMade J.start result (in_hand seen.old seat.old) (in_hand seen.new seat.new) }
    ensures refused { IfErr result IsTurnRefusal }
{
    let mut held = lock_soon(rt, book);
    held.host_turn_seen(seat, seen)
}

/// The book under its lock, the nodes under sixteen others, node `i` in cell `i` mod 16, and the mark. A thread that holds two locks takes
/// a cell's first, and then the book's; only `rest` takes a cell's while the book's is held.
#[derive(Drop)]
pub struct Shared<J: Naming> {
    book: Mutex<Locked<J>>,
    pub(crate) row0: Row<0, 1, 2, 3, J>,
    pub(crate) row1: Row<4, 5, 6, 7, J>,
    pub(crate) row2: Row<8, 9, 10, 11, J>,
    pub(crate) row3: Row<12, 13, 14, 15, J>,
    mark: Mark,
    nodes: u8,
    ports: u8,
    pub ghost named: { mark ≡ J.mark },
    pub ghost counted: { (nodes ≡ length J.start.nodes) × (ports ≡ length J.start.ports) },
}

impl<J: Naming> Shared<J> {
    /// Puts `parts` under locks. The names are those of `parts`: the caller picks them. The first key is the flusher's, and shows what is told
    /// of the book as it is. The other is the host's, and shows that nothing was handed in.
    pub fn start(parts: Parts) -> (Shared<J>, Key<Told>, HostKey<J>)
        requires { Names J.roll J.first J.start J.node J.mark J.flusher J.host J.sights J.room J.accepted parts }
        ensures first { J.first ≡ parts.first }
        ensures room { J.room ≡ parts.book.room }
        ensures key { (result.1.name ≡ J.flusher) × (result.1.value ≡ told_of J.before J.first (record { book = parts.book; all = []; numbered_from = J.first; frozen = frozen_in parts.seals })) }
        ensures host { result.2 ≡ [] }
    {
        let now = Told::first::<J>(&parts);
        parts.book.known();
        let nodes = parts.book.nodes() as u8;
        let ports = parts.book.ports() as u8;
        let Parts {
            book,
            seals,
            dealt,
            roll,
            mark,
            mut told,
            mut key,
            given,
            host,
            sights,
        } = parts;
        turn(&mut told, &mut key, &now);
        let shared = Shared {
            book: Mutex::new(Locked::new(book, seals, roll, told, given, SightRoll::over(sights))),
            row0: Row::new(dealt.row0),
            row1: Row::new(dealt.row1),
            row2: Row::new(dealt.row2),
            row3: Row::new(dealt.row3),
            mark,
            nodes,
            ports,
        };
        (shared, key, HostKey::over(host))
    }

    /// Makes a seat without a slip. Threads that share the network can't call this.
    pub fn seat(&mut self) -> Seat<J>
        ensures same { self.new ≡ self.old }
        ensures empty { result ≡ [] }
    {
        Seat::new()
    }

    /// Gives the book's lock.
    pub fn book(&self) -> &Mutex<Locked<J>> {
        &self.book
    }

    /// Gives the durable mark.
    pub fn mark(&self) -> &Mark
        ensures { result.now ≡ J.mark }
    {
        &self.mark
    }

    /// Counts the nodes.
    pub fn nodes(&self) -> u8
        ensures { result ≡ length J.start.nodes }
    {
        self.nodes
    }

    /// Counts the ports.
    pub fn ports(&self) -> u8
        ensures { result ≡ length J.start.ports }
    {
        self.ports
    }

    /// Makes a turn of the node `number`, in the form that the book has when the turn is opened:
    /// - The node records, if a snapshot asks it to.
    /// - In a book of form Plain it takes what came in on its links 0 to 3, in order, each token with an entry. It takes at most three
    ///   tokens of each link, a Marker among them.
    /// - In a book of form Turns it closes at Markers. It receives what is at the front of its lines, which stays there until the turn's
    ///   one entry.
    /// - A turn is reserved, and the node runs for at most `quantum` steps, while the book's lock isn't held.
    ///
    /// If the turn can't be reserved, memory is out or the store fails, nothing ran. In each case `seat` gets the slips of the entries of
    /// what was taken. `seen` gets the book at the beginning and at the end of each hold of its lock. `runs` is what the thread keeps of
    /// instructions.
    #[inline(always)]
    pub fn turn<G: Gate, R: Wait>(
        &self,
        rt: &R,
        gate: &G,
        seat: &mut Seat<J>,
        seen: &mut Sights<J>,
        runs: &mut Runs,
        number: u8,
        quantum: u16,
    ) -> Result<NodeTurn, Refusal>
        requires quantum { quantum ≤ MAX_STEPS }
        requires there { number < length J.start.nodes }
        ensures turned { MatchResult result (λ turn. NodeTurned J.start number quantum turn seat.old seat.new) (λ e. Gained (TookAlone J.start number) seat.old seat.new) }
        ensures went { MatchResult result (λ turn. TurnMade J.start number quantum turn (in_hand seen.old seat.old) (in_hand seen.new seat.new)) (λ e. TurnBrokenOff J.start number e (in_hand seen.old seat.old) (in_hand seen.new seat.new)) }
        ensures refused { IfErr result IsTurnRefusal }
    {
        in_row!(self, number, row => row.turn(rt, gate, &self.book, seat, seen, runs, number, quantum))
    }

    /// Lets the node `number` record, if a snapshot asks it to. It takes nothing, and nothing runs. Answers whether it recorded, with the
    /// book before and after that.
    pub fn record<R: Wait>(&self, rt: &R, number: u8) -> Recorded<J>
        requires { number < length J.start.nodes }
        ensures recorded { RecordedIn J.start number result.seen result.done }
    {
        in_row!(self, number, row => row.record(rt, &self.book, number))
    }

    /// Makes the host's turn: each of its ports, in order, takes at most three tokens of its line, a Marker among them. `seat` gets the
    /// slips of the entries, also if the turn broke off, and `seen` the book before and after it. Answers how many tokens were taken,
    /// without Markers.
    #[inline(always)]
    pub fn host_turn<G: Gate, R: Wait>(
        &self,
        rt: &R,
        gate: &G,
        seat: &mut Seat<J>,
        seen: &mut Sights<J>,
    ) -> Result<u64, Refusal>
        ensures turned { MatchResult result (λ takes. Gained (CountedTakes J.start (length J.start.nodes) takes) seat.old seat.new) (λ e. Gained (AreTakes J.start (length J.start.nodes)) seat.old seat.new) }
        ensures went { HostTurnMade J.start result (in_hand seen.old seat.old) (in_hand seen.new seat.new) }
        ensures refused { IfErr result IsTurnRefusal }
    {
        let done = host_hold(rt, &self.book, seat, seen);
        gate.at(self.nodes, COMMITTED);
        done
    }

    /// Gives what the book's lock holds, once no thread shares it any more.
    pub fn into_locked(self) -> Locked<J> {
        let Shared { book, .. } = self;
        book.into_inner()
    }
}
