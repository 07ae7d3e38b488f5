//! Four locks with the nodes under them, and their turns.

ghost use Rattle.std.specs.Prelude.{◌<◌, ◌≤◌, length, IfErr, MatchResult};
ghost use Rattle.tp_model.specs.declared.limits.TheConstants.{MAX_STEPS};
ghost use Rattle.tp_shared.specs.Entries.{IsTurnRefusal, TookAlone};
ghost use Rattle.tp_shared.specs.Gains.{Gained};
ghost use Rattle.tp_shared.specs.Hands.{AreOfRow};
ghost use Rattle.tp_shared.specs.Holds.{in_hand};
ghost use Rattle.tp_shared.specs.NodeTurned.{NodeTurned};
ghost use Rattle.tp_shared.specs.RecordedIn.{RecordedIn};
ghost use Rattle.tp_shared.specs.Rows.{IsInRow};
ghost use Rattle.tp_shared.specs.TurnsMade.{TurnBrokenOff, TurnMade};

use crate::book::locked::Locked;
use crate::book::sights::Sights;
use crate::gate::Gate;
use crate::naming::Naming;
use crate::nodes::cell::Cell;
use crate::nodes::cells::{ROW, in_cell};
use crate::nodes::hand::Hand;
use crate::nodes::node_turn::NodeTurn;
use crate::nodes::recorded::Recorded;
use crate::seat::Seat;
use crate::soon::lock_soon;
use std::sync::{Mutex, Wait};
use tp_book::Refusal;
use tp_node::Runs;

/// Four cells with consecutive numbers, each under its lock.
#[derive(Drop)]
pub struct Row<const A: usize, const B: usize, const C: usize, const D: usize, J: Naming> {
    pub(crate) cell0: Mutex<Cell<A, J>>,
    pub(crate) cell1: Mutex<Cell<B, J>>,
    pub(crate) cell2: Mutex<Cell<C, J>>,
    pub(crate) cell3: Mutex<Cell<D, J>>,
}

impl<const A: usize, const B: usize, const C: usize, const D: usize, J: Naming> Row<A, B, C, D, J> {
    pub(crate) fn new(hand: Hand) -> Row<A, B, C, D, J>
        requires { AreOfRow A B C D J.node (length J.start.nodes) hand }
    {
        Row {
            cell0: Mutex::new(Cell::new(hand.places0)),
            cell1: Mutex::new(Cell::new(hand.places1)),
            cell2: Mutex::new(Cell::new(hand.places2)),
            cell3: Mutex::new(Cell::new(hand.places3)),
        }
    }

    /// Makes a turn of the node `number` of this row.
    #[inline(always)]
    pub(crate) fn turn<G: Gate, R: Wait>(
        &self,
        rt: &R,
        gate: &G,
        book: &Mutex<Locked<J>>,
        seat: &mut Seat<J>,
        seen: &mut Sights<J>,
        runs: &mut Runs,
        number: u8,
        quantum: u16,
    ) -> Result<NodeTurn, Refusal>
        requires quantum { quantum ≤ MAX_STEPS }
        requires there { number < length J.start.nodes }
        requires here { IsInRow A B C D number }
        ensures turned { MatchResult result (λ turn. NodeTurned J.start number quantum turn seat.old seat.new) (λ e. Gained (TookAlone J.start number) seat.old seat.new) }
        ensures went { MatchResult result (λ turn. TurnMade J.start number quantum turn (in_hand seen.old seat.old) (in_hand seen.new seat.new)) (λ e. TurnBrokenOff J.start number e (in_hand seen.old seat.old) (in_hand seen.new seat.new)) }
        ensures refused { IfErr result IsTurnRefusal }
    {
        in_cell!(self, number, cell => lock_soon(rt, cell).turn(rt, gate, book, seat, seen, runs, number, quantum))
    }

    /// Lets the node `number` of this row record, if it is asked to.
    pub(crate) fn record<R: Wait>(&self, rt: &R, book: &Mutex<Locked<J>>, number: u8) -> Recorded<J>
        requires there { number < length J.start.nodes }
        requires here { IsInRow A B C D number }
        ensures recorded { RecordedIn J.start number result.seen result.done }
    {
        in_cell!(self, number, cell => cell.lock(rt).record(rt, book, number))
    }
}
