//! The host's ports: what they take in, hold, show and confirm.

pub(crate) mod confirm;
pub(crate) mod fill;
pub(crate) mod host;
pub(crate) mod hosts;
pub(crate) mod input;
pub(crate) mod pending;
pub(crate) mod port;
pub(crate) mod port_parts;
pub(crate) mod receipt;
pub(crate) mod shown;
