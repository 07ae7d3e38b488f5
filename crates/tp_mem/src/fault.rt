//! Why a write wasn't made.

use thiserror::Error;

/// Nothing was written.
#[derive(Clone, Copy, Debug, Error)]
pub enum WriteFault {
    /// An address is outside memory. This fault comes before the other one.
    #[error("Outside")]
    Outside,
    /// Memory is frozen, and the shared pages that the call would write outnumber the free frames.
    #[error("NoFrame")]
    NoFrame,
}

/// The shared pages to part outnumber the free frames. Nothing has changed.
#[derive(Clone, Copy)]
pub struct NoFrame;
