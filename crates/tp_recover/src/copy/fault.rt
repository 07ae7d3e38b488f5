//! Why a device wasn't copied.

use thiserror::Error;

/// Why there is no copy.
#[derive(Clone, Copy, Debug, PartialEq, Eq, Error)]
pub enum CopyFault {
    /// The device that is copied failed in a read, or isn't as long as its head says.
    #[error("ReadFailed")]
    ReadFailed,
    /// The copy failed in a call, has no room, or doesn't open to what the device opened to.
    #[error("DeviceFailed")]
    DeviceFailed,
    /// Out of memory.
    #[error("Memory")]
    Memory,
}
