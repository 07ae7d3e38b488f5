//! Why a turn fails.

ghost use Rattle.std.specs.Prelude.{◌≡◌};
ghost use Rattle.tp_shared.specs.Entries.{IsTurnRefusal};
ghost use Rattle.tp_work.specs.Turns.{turn_fault};

use thiserror::Error;
use tp_book::Refusal;

/// After `Empty` nothing has changed. After the others the process is back in the ready queue; what it took before stays, and nothing ran.
#[derive(Clone, Copy, Debug, PartialEq, Eq, Error)]
pub enum TurnFault {
    /// No process was in the ready queue: all were with other seats.
    #[error("Empty")]
    Empty,
    /// There is no room on the device for another entry, or no number.
    #[error("JournalFull")]
    JournalFull,
    /// The store failed, and nothing is journalled until it is opened again.
    #[error("StoreBroken")]
    StoreBroken,
    /// Out of memory.
    #[error("Memory")]
    Memory,
}

impl TurnFault {
    /// Gives the fault of a turn that the book refused.
    pub(crate) fn of(refusal: Refusal) -> TurnFault
        requires { IsTurnRefusal refusal }
        ensures { result ≡ turn_fault refusal }
    {
        match refusal {
            Refusal::JournalFull => TurnFault::JournalFull,
            Refusal::StoreBroken => TurnFault::StoreBroken,
            Refusal::Memory => TurnFault::Memory,
            Refusal::NothingToTake | Refusal::SnapshotRunning | Refusal::PortFull => {
                unreachable!()
            }
        }
    }
}
