//! Why an entry isn't applied.

use thiserror::Error;

/// The entry isn't possible in the network as it is.
#[derive(Clone, Copy, Debug, PartialEq, Eq, Error)]
#[error("NotPossible")]
pub struct NotPossible;

/// A row isn't replayed.
#[derive(Clone, Copy, Debug, PartialEq, Eq, Error)]
pub enum RowFault {
    /// It is no entry, its number is out of place, or the entry isn't possible.
    #[error("Damaged")]
    Damaged,
    /// Out of memory.
    #[error("Memory")]
    Memory,
}

/// Rows aren't replayed.
#[derive(Clone, Copy, Debug, PartialEq, Eq, Error)]
pub enum ReplayFault {
    /// The row at this place is damaged.
    #[error("Damaged {0}")]
    Damaged(u64),
    /// Out of memory.
    #[error("Memory")]
    Memory,
}
