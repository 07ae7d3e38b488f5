//! Whether turns heed that the store has failed.

ghost use Rattle.std.specs.Prelude.{◌≡◌};
ghost use Rattle.tp_work.specs.Heeds.{heed_after};

use crate::fault::TurnFault;
use crate::turn::Turn;

/// Whether the turns at a seat heed that the store has failed.
#[derive(Clone, Copy)]
pub enum Heed {
    /// No turn was refused because the store has failed.
    Unbroken,
    /// The last turn was, and no other.
    Ended,
    /// A turn was made after one that was.
    Ignored,
}

impl Heed {
    /// Notes one more turn, which was done or refused so.
    pub(crate) fn after(self, done: &Result<Turn, TurnFault>) -> Heed
        ensures { result ≡ heed_after done.now self }
    {
        match self {
            Heed::Unbroken => match done {
                Err(TurnFault::StoreBroken) => Heed::Ended,
                Ok(_) | Err(_) => Heed::Unbroken,
            },
            Heed::Ended | Heed::Ignored => Heed::Ignored,
        }
    }
}
