//! The book under its lock: what a hold of it does, and what is seen there.

pub(crate) mod hold;
pub(crate) mod host;
pub(crate) mod locked;
pub(crate) mod look;
pub(crate) mod seeing;
pub(crate) mod sights;
pub(crate) mod snapshot;
pub(crate) mod trim;
pub(crate) mod write;
