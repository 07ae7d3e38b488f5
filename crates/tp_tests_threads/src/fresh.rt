//! The device of one node, freshly formatted, and what a device opens to.

use crate::left;
use crate::small::{ONE, formatted};
use std::alloc::Global;
use std::test::Fail;
use tp_disk::MemDisk;
use tp_recover::Opened;

/// The bytes of the device of the node that sends a letter, freshly formatted.
pub(crate) fn fresh(alloc: Global) -> Result<Vec<u8>, Fail> {
    Ok(formatted(alloc, &ONE)?)
}

/// What a device opens to.
pub(crate) fn opened(alloc: Global, bytes: &[u8]) -> Result<Opened, Fail> {
    left::opened(alloc, MemDisk::of_bytes(Vec::from_slice(alloc, bytes)?))
}
