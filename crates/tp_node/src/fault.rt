//! Why a call fails.

use thiserror::Error;

/// No node was made.
#[derive(Clone, Copy, Debug, PartialEq, Eq, Error)]
pub enum ImageFault {
    /// The bytes are no node's image.
    #[error("BadImage")]
    BadImage,
    /// Out of memory. No bytes cause it.
    #[error("Memory")]
    Memory,
}

/// Memory is frozen, and the shared pages that a step or a token would write outnumber the free frames. Nothing has changed.
#[derive(Clone, Copy, Debug, Error)]
#[error("NoFrame")]
pub struct NoFrame;
