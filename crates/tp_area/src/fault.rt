//! Why a call of the store, or formatting, fails.

use thiserror::Error;

#[derive(Clone, Copy, Debug, PartialEq, Eq, Error)]
pub enum StoreFault {
    /// The device failed in this call. From then on the store is broken.
    #[error("DeviceFailed")]
    DeviceFailed,
    /// What is to be written doesn't fit into its area.
    #[error("AreaFull")]
    AreaFull,
    /// The device failed in an earlier call, and must be opened again.
    #[error("StoreBroken")]
    StoreBroken,
}

#[derive(Clone, Copy, Debug, PartialEq, Eq, Error)]
pub enum FormatFault {
    /// The device failed in this call. It isn't formatted.
    #[error("DeviceFailed")]
    DeviceFailed,
    /// The device is too small for two such areas, or an area for an entry.
    #[error("AreaFull")]
    AreaFull,
    /// Out of memory.
    #[error("Memory")]
    Memory,
    /// Not every node has one image; or an image is none, has other pages than its node, or has a link that isn't idle.
    #[error("BadImage")]
    BadImage,
}
