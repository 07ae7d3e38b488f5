//! Why a call of the book fails.

use thiserror::Error;

/// The book is then as it was before the call.
#[derive(Clone, Copy, Debug, PartialEq, Eq, Error)]
pub enum Refusal {
    /// There is no room on the device for another entry, or no number.
    #[error("JournalFull")]
    JournalFull,
    /// The store failed, and nothing is journalled until it is opened again.
    #[error("StoreBroken")]
    StoreBroken,
    /// Out of memory.
    #[error("Memory")]
    Memory,
    /// The line is empty, or has a Marker at the front.
    #[error("NothingToTake")]
    NothingToTake,
    /// A snapshot is already running.
    #[error("SnapshotRunning")]
    SnapshotRunning,
    /// The port has no room for another byte.
    #[error("PortFull")]
    PortFull,
}
