//! Why a part of a step was not done.

use thiserror::Error;
use tp_model::{Fault, InRequest, OutRequest};

/// Nothing has changed.
#[derive(Clone, Copy, Debug, Error)]
pub enum Undone {
    /// The node is to halt.
    #[error(transparent)]
    Faulty(Fault),
    /// Memory is frozen, and the shared pages that the part would write outnumber the free frames.
    #[error("NoFrame")]
    NoFrame,
    /// The step asks an output end of a link for something.
    #[error("Asks")]
    Asks(OutRequest),
    /// The step asks an input end of a link for something.
    #[error("Wants")]
    Wants(InRequest),
}

pub const BAD_ADDRESS: Undone = Undone::Faulty(Fault::BadAddress);
