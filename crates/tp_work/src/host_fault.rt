//! Why sessions' calls fail.

ghost use Rattle.std.specs.Prelude.{◌≡◌};
ghost use Rattle.tp_work.specs.Offers.{IsInputRefusal, input_fault};
ghost use Rattle.tp_work.specs.Outputs.{IsConfirmRefusal, confirmation_fault};

use thiserror::Error;
use tp_book::Refusal;

/// Why an offer fails. Nothing was handed in.
#[derive(Clone, Copy, Debug, PartialEq, Eq, Error)]
pub enum OfferFault {
    /// The offer begins before the end of what the port has accepted. Has the number of bytes that the port has accepted.
    #[error("Already {0}")]
    Already(u64),
    /// The offer begins after the next byte that the port accepts. Has the number of bytes that the port has accepted.
    #[error("Gap {0}")]
    Gap(u64),
    /// The port has no room for all the bytes. Has the number of bytes that it has room for.
    #[error("PortFull {0}")]
    PortFull(u64),
    /// There is no room on the device for the entries, or there are no numbers.
    #[error("JournalFull")]
    JournalFull,
    /// The store failed, and nothing is journalled until it is opened again.
    #[error("StoreBroken")]
    StoreBroken,
    /// Out of memory.
    #[error("Memory")]
    Memory,
}

impl OfferFault {
    /// Gives the fault of an offer that the book refused. The port has room for `room` bytes.
    pub(crate) fn of(refusal: Refusal, room: u64) -> OfferFault
        requires { IsInputRefusal refusal }
        ensures { result ≡ input_fault room refusal }
    {
        match refusal {
            Refusal::PortFull => OfferFault::PortFull(room),
            Refusal::JournalFull => OfferFault::JournalFull,
            Refusal::StoreBroken => OfferFault::StoreBroken,
            Refusal::Memory => OfferFault::Memory,
            Refusal::NothingToTake | Refusal::SnapshotRunning => unreachable!(),
        }
    }
}

/// Why outputs can't be confirmed. None was.
#[derive(Clone, Copy, Debug, Error)]
pub enum ConfirmFault {
    /// The mark doesn't show the outputs up to the position.
    #[error("NotShown")]
    NotShown,
    /// There is no room on the device for another entry, or no number.
    #[error("JournalFull")]
    JournalFull,
    /// The store failed, and nothing is journalled until it is opened again.
    #[error("StoreBroken")]
    StoreBroken,
    /// Out of memory.
    #[error("Memory")]
    Memory,
}

impl ConfirmFault {
    /// Gives the fault of a confirmation that the book refused.
    pub(crate) fn of(refusal: Refusal) -> ConfirmFault
        requires { IsConfirmRefusal refusal }
        ensures { result ≡ confirmation_fault refusal }
    {
        match refusal {
            Refusal::JournalFull => ConfirmFault::JournalFull,
            Refusal::StoreBroken => ConfirmFault::StoreBroken,
            Refusal::Memory => ConfirmFault::Memory,
            Refusal::NothingToTake | Refusal::SnapshotRunning | Refusal::PortFull => {
                unreachable!()
            }
        }
    }
}

/// Why outputs aren't shown.
#[derive(Clone, Copy, Debug, PartialEq, Eq, Error)]
pub enum ShownFault {
    /// The outputs were confirmed up to a later position.
    #[error("TooOld")]
    TooOld,
    /// The mark doesn't show the outputs up to the position.
    #[error("TooNew")]
    TooNew,
    /// Out of memory.
    #[error("Memory")]
    Memory,
}
