//! Why a turn of the flusher ended early.

use thiserror::Error;

#[derive(Clone, Copy, Debug, PartialEq, Eq, Error)]
pub enum FlushFault {
    /// The device failed in this turn. From then on the flusher makes no call of it, and the book journals nothing more.
    #[error("DeviceFailed")]
    DeviceFailed,
    /// The device failed in an earlier turn, and must be opened again. Nothing is done.
    #[error("StoreBroken")]
    StoreBroken,
    /// Out of memory: before the first call of the device, or after all was appended, as the tail of a checkpoint was copied. Nothing is
    /// lost, and the next turn goes on.
    #[error("Memory")]
    Memory,
    /// The open area has no room for a group. A proper device never answers this: all entries of the book fit. What was appended before in
    /// this turn stays, the mark isn't raised, and nothing is lost.
    #[error("AreaFull")]
    AreaFull,
}
