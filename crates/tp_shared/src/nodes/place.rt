//! Places of nodes.

use crate::nodes::shown::Shown;
use tp_node::Node;
use tp_ready::twin::Key;

/// A node under its lock, with its key.
#[derive(Drop)]
pub struct Place {
    pub(crate) node: Node,
    pub(crate) key: Key<Shown>,
}
