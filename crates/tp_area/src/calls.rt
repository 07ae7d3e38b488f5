//! What is written to a device, call by call.

pub(crate) mod copy;
pub(crate) mod formatting;
pub(crate) mod gate;
pub(crate) mod group;
pub(crate) mod other;
pub(crate) mod puts;
pub(crate) mod switch;
pub(crate) mod tail;
