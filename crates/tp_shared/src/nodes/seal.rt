//! Seals of nodes.

use crate::nodes::shown::Shown;
use tp_ready::twin::Seal;

/// The seal of a node, which is under the book's lock, and whether the node is frozen.
#[derive(Drop)]
pub struct NodeSeal {
    pub(crate) frozen: bool,
    pub(crate) seal: Seal<Shown>,
}
