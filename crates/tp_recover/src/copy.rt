//! Copying a device.

pub(crate) mod copying;
pub(crate) mod fault;
pub(crate) mod kept;
pub(crate) mod pieces;
