//! What a turn did.

use tp_node::Ran;

/// The process that made a turn, how many tokens it took, and how it ran. The host, whose number comes after the nodes', only takes.
#[derive(Drop)]
pub struct Turn {
    pub process: u8,
    pub takes: u64,
    pub ran: Option<Ran>,
}
