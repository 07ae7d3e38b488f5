//! Seats of workers.

ghost use Rattle.std.specs.Prelude.{◌≡◌, ◌-◌, ◌^◌, length, min};
ghost use Rattle.tp_shared.specs.SlipCount.{IsSlipCount};

use crate::heed::Heed;
use tp_node::Runs;
use tp_ready::{Answers, Hand};
use tp_shared::{Naming, Sights};

/// The place at which a worker makes turns. It takes one process at a time, and has the slips of what its turns journalled. It keeps what
/// its thread has read of instructions, of all nodes. It counts its turns, up to the greatest number, and notes whether they heed that the
/// store has failed. Only proofs see what the ready queue answered and what was seen of the book under its lock. Nobody can copy it.
#[derive(Drop)]
pub struct Seat<J: Naming> {
    pub(crate) hand: Hand,
    pub(crate) answers: Answers,
    pub(crate) slips: tp_shared::Seat<J>,
    pub(crate) seen: Sights<J>,
    pub(crate) runs: Runs,
    pub(crate) made: u64,
    pub(crate) heed: Heed,
    pub ghost tallied: { made ≡ min (length answers) (2 ^ 64 - 1) },
}

impl<J: Naming> Seat<J> {
    /// Counts the entries that its turns made, up to the greatest number.
    pub fn count(&self) -> u64
        ensures { IsSlipCount result self.now.slips }
    {
        self.slips.count()
    }

    /// Counts its turns, which are as many as the answers of the ready queue, up to the greatest number.
    pub fn turns(&self) -> u64
        ensures { result ≡ min (length self.now.answers) (2 ^ 64 - 1) }
    {
        self.made
    }

    /// Gives the slips of all that its turns journalled, for an audit.
    pub fn into_slips(self) -> tp_shared::Seat<J>
        ensures { result ≡ self.slips }
    {
        let Seat { slips, .. } = self;
        slips
    }
}
