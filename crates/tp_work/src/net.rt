//! A network in threads, and its turns.

ghost use Rattle.std.specs.Prelude.{◌≡◌, ◌≤◌, ◌+◌, [], Some, None, length, IfOk, MatchResult};
ghost use Rattle.tp_work.specs.Lower.{MAX_STEPS, in_hand};
ghost use Rattle.tp_work.specs.Heeds.{heed_after};
ghost use Rattle.tp_work.specs.PutBack.{PutBack, PutBackBehind};
ghost use Rattle.tp_work.specs.Turns.{Turned, Refused, Handed, TurnWent, RefusedFor, RefusedBy};

use crate::fault::TurnFault;
use crate::seat::Seat;
use crate::turn::Turn;
use std::sync::Wait;
use tp_node::Runs;
use tp_ready::{Hand, ReadyQueue};
use tp_shared::gate::NUMBER_TAKEN;
use tp_shared::{Gate, Naming, NodeTurn, Shared, Sights};

/// What threads share, the ready queue of all processes, how many steps a node's turn may have, and the gate that each turn passes.
#[derive(Drop)]
pub struct Net<J: Naming, G: Gate> {
    pub(crate) shared: Shared<J>,
    pub(crate) queue: ReadyQueue,
    pub(crate) quantum: u16,
    pub(crate) gate: G,
    pub ghost processes: { queue.count ≡ length J.start.nodes + 1 },
    pub ghost few: { quantum ≤ MAX_STEPS },
}

impl<J: Naming, G: Gate> Net<J, G> {
    /// Gives what threads share.
    pub fn shared(&self) -> &Shared<J> {
        &self.shared
    }

    /// Makes a seat without a slip, for what is journalled at no worker's seat: what the host hands in and confirms, and turns that no
    /// worker makes. Threads that share the network can't call this.
    pub fn seat(&mut self) -> tp_shared::Seat<J>
        ensures same { (self.new.shared ≡ self.old.shared) × (self.new.queue ≡ self.old.queue) × (self.new.quantum ≡ self.old.quantum) × (self.new.gate ≡ self.old.gate) }
        ensures empty { result ≡ [] }
    {
        self.shared.seat()
    }

    /// Makes a turn of the process that waits longest: the process whose number the ready queue hands out, as `seat` keeps. Afterwards the
    /// process is at the end of the queue, whatever its turn did; the hand of `seat` makes no other call. `seat` gets the slips of what was
    /// journalled, and what was seen of the book, and counts the turn. `Empty` is the queue's own answer, and comes only if there are more
    /// seats than processes.
    #[inline(always)]
    pub fn turn<R: Wait>(&self, rt: &R, seat: &mut Seat<J>) -> Result<Turn, TurnFault>
        requires queue { seat.old.hand.of ≡ Some self.now.queue }
        ensures queue { seat.new.hand.of ≡ Some self.now.queue }
        ensures back { MatchResult result (λ turn. PutBack self.now.queue turn.process seat.old.hand.past seat.new.hand.past) (λ fault. PutBackBehind self.now.queue fault seat.old.answers seat.new.answers seat.old.hand.past seat.new.hand.past) }
        ensures turned { MatchResult result (λ turn. Turned J.start self.now.quantum turn seat.old.slips seat.new.slips) (λ fault. Refused J.start fault seat.old.slips seat.new.slips) }
        ensures handed { MatchResult result (λ turn. Handed self.now.queue (Some turn.process) seat.old.answers seat.new.answers) (λ fault. RefusedBy J.start self.now.queue fault seat.old.answers seat.new.answers (in_hand seat.old.seen seat.old.slips) (in_hand seat.new.seen seat.new.slips)) }
        ensures went { IfOk result (λ turn. TurnWent J.start self.now.quantum turn (in_hand seat.old.seen seat.old.slips) (in_hand seat.new.seen seat.new.slips)) }
        ensures heed { seat.new.heed ≡ heed_after result seat.old.heed }
    {
        let Seat {
            hand,
            answers,
            slips,
            seen,
            runs,
            made,
            heed,
            ..
        } = seat;
        *made = made.saturating_add(1);
        let Some(taken) = self.queue.take(rt, hand, answers) else {
            let done = Err(TurnFault::Empty);
            *heed = heed.after(&done);
            return done;
        };
        self.gate.at(taken.number(), NUMBER_TAKEN);
        let done = self.turn_of(rt, hand, slips, seen, runs, taken.number());
        *heed = heed.after(&done);
        self.queue.put_back(rt, hand, taken);
        done
    }

    // Makes a turn of a process, while `hand` has its number, so that it isn't back in the queue.
    #[inline(always)]
    fn turn_of<R: Wait>(
        &self,
        rt: &R,
        _hand: &Hand,
        slips: &mut tp_shared::Seat<J>,
        seen: &mut Sights<J>,
        runs: &mut Runs,
        process: u8,
    ) -> Result<Turn, TurnFault>
        requires there { process ≤ length J.start.nodes }
        requires held { _hand.now.of ≡ None }
        ensures process { IfOk result (λ turn. turn.process ≡ process) }
        ensures turned { MatchResult result (λ turn. Turned J.start self.now.quantum turn slips.old slips.new) (λ fault. Refused J.start fault slips.old slips.new) }
        ensures went { MatchResult result (λ turn. TurnWent J.start self.now.quantum turn (in_hand seen.old slips.old) (in_hand seen.new slips.new)) (λ fault. RefusedFor J.start process fault (in_hand seen.old slips.old) (in_hand seen.new slips.new)) }
    {
        if process == self.shared.nodes() {
            return match self.shared.host_turn(rt, &self.gate, slips, seen) {
                Ok(takes) => Ok(Turn {
                    process,
                    takes,
                    ran: None,
                }),
                Err(refusal) => Err(TurnFault::of(refusal)),
            };
        }
        match self
            .shared
            .turn(rt, &self.gate, slips, seen, runs, process, self.quantum)
        {
            Ok(NodeTurn { taken, ran }) => Ok(Turn {
                process,
                takes: taken,
                ran: Some(ran),
            }),
            Err(refusal) => Err(TurnFault::of(refusal)),
        }
    }
}
