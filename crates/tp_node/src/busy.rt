//! Why an end refuses.

use thiserror::Error;

/// The end is in use. It stays as it was.
#[derive(Clone, Copy, Debug, PartialEq, Eq, Error)]
#[error("LinkBusy")]
pub struct LinkBusy;
