//! How a network in threads begins.

ghost use Rattle.std.specs.Prelude.{◌≡◌, ◌<◌, ◌≤◌, [], All, IfOk, Some, map, vec_len};
ghost use Rattle.tp_work.specs.Lower.{MAX_STEPS, IsNew, frozen_in, Names, told_of};
ghost use Rattle.tp_work.specs.declared.start.TheConstants.{MAX_SEATS};

use crate::heed::Heed;
use crate::net::Net;
use crate::seat::Seat;
use std::alloc::{AllocError, Global};
use std::sync::Wait;
use tp_node::Runs;
use tp_ready::twin::Key;
use tp_ready::{Answers, Hand, ReadyQueue};
use tp_shared::{Gate, HostKey, Naming, Parts, Shared, Sights, Told};

/// The most seats of a network.
pub const MAX_SEATS: u8 = 32;

/// The most workers of a run, each at a seat of its own.
pub const MAX_WORKERS: u8 = 16;

// Makes a seat without a slip or turn for each hand, while nothing is shared yet.
fn seats_of<J: Naming>(
    alloc: Global,
    shared: &mut Shared<J>,
    hands: Vec<Hand>,
) -> Result<Vec<Seat<J>>, AllocError>
    ensures count { IfOk result (λ seats. vec_len seats ≡ vec_len hands) }
    ensures hands { IfOk result (λ seats. map (λ seat. seat.hand) seats.items ≡ hands.items) }
    ensures slips { IfOk result (λ seats. All (λ seat. seat.slips ≡ []) seats.items) }
    ensures idle { IfOk result (λ seats. All (λ seat. (seat.answers ≡ []) × (seat.heed ≡ Heed.Unbroken)) seats.items) }
{
    let mut seats = Vec::new(alloc);
    for hand in hands {
        seats.push(Seat {
            hand,
            answers: Answers::new(),
            slips: shared.seat(),
            seen: Sights::new(),
            runs: Runs::new(alloc)?,
            made: 0,
            heed: Heed::Unbroken,
        })?;
    }
    Ok(seats)
}

impl<J: Naming, G: Gate + Drop> Net<J, G> {
    /// Puts `parts` under locks, fills the ready queue with the numbers of all processes, the nodes' in order and then the host's, and
    /// makes `seats` seats. A node's turn may have `quantum` steps. The first key is the flusher's, and shows what is told of the book as it
    /// is. The other is the host's, and shows that nothing was handed in.
    #[inline(never)]
    pub fn start<R: Wait>(
        rt: &R,
        alloc: Global,
        parts: Parts,
        quantum: u16,
        seats: u8,
        gate: G,
    ) -> Result<(Net<J, G>, Vec<Seat<J>>, Key<Told>, HostKey<J>), AllocError>
        requires names { Names J.roll J.first J.start J.node J.mark J.flusher J.host J.sights J.room J.accepted parts }
        requires quantum { (0 < quantum) × (quantum ≤ MAX_STEPS) }
        requires seats { (0 < seats) × (seats ≤ MAX_SEATS) }
        ensures quantum { IfOk result (λ started. started.0.quantum ≡ quantum) }
        ensures count { IfOk result (λ started. (vec_len started.1 ≡ seats) × (started.0.queue.hands ≡ seats)) }
        ensures seats { IfOk result (λ started. All (λ seat. (seat.hand.of ≡ Some started.0.queue) × (seat.slips ≡ [])) started.1.items) }
        ensures new { IfOk result (λ started. All (λ seat. IsNew seat.hand.past) started.1.items) }
        ensures idle { IfOk result (λ started. All (λ seat. (seat.answers ≡ []) × (seat.heed ≡ Heed.Unbroken)) started.1.items) }
        ensures key { IfOk result (λ started. (started.2.name ≡ J.flusher) × (started.2.value ≡ told_of J.before J.first (record { book = parts.book; all = []; numbered_from = J.first; frozen = frozen_in parts.seals }))) }
        ensures host { IfOk result (λ started. started.3 ≡ []) }
    {
        let (mut shared, key, host) = Shared::start(parts);
        let (queue, hands) = ReadyQueue::start(rt, alloc, shared.nodes(), seats)?;
        let seats = seats_of(alloc, &mut shared, hands)?;
        let net = Net {
            shared,
            queue,
            quantum,
            gate,
        };
        Ok((net, seats, key, host))
    }
}
