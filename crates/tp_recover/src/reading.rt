//! Reading bytes of a device.

pub(crate) mod asked;
pub(crate) mod device;
pub(crate) mod fetching;
pub(crate) mod window;
