//! What each lap of a stream needs.

use crate::pace::Pace;
use std::alloc::{AllocError, Global};
use tp_shared::{Naming, NoGate};
use tp_work::Net;

/// What each lap of a stream needs: the runtime for its system calls (`rt`), the source of its memory (`alloc`), the network that its threads share
/// (`net`), and how to make turns (`pace`).
pub(crate) struct Ground<'r, J: Naming, R> {
    pub(crate) rt: &'r R,
    pub(crate) alloc: Global,
    pub(crate) net: &'r Net<J, NoGate>,
    pub(crate) pace: Pace,
}

impl<'r, J: Naming, R> Clone for Ground<'r, J, R> {
    fn clone(&self) -> Result<Ground<'r, J, R>, AllocError> {
        Ok(*self)
    }
}

impl<'r, J: Naming, R> Copy for Ground<'r, J, R> {}
