//! What a node's turn did.

use tp_node::Ran;

/// How many tokens a node took in its turn, and how it ran.
#[derive(Drop)]
pub struct NodeTurn {
    pub taken: u64,
    pub ran: Ran,
}
