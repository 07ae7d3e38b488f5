//! Why a device isn't opened.

use thiserror::Error;
use tp_model::OpenFault;

/// Why nothing was read.
#[derive(Clone, Copy, Debug, PartialEq, Eq, Error)]
pub enum Unopened {
    /// What the device holds breaks a rule.
    #[error(transparent)]
    Fault(OpenFault),
    /// The device failed in the call.
    #[error("ReadFailed")]
    ReadFailed,
    /// Out of memory. No device causes it.
    #[error("Memory")]
    Memory,
}
