//! A network taken apart.

use tp_book::HostPort;
use tp_model::WireEnd;
use tp_net::Lines;
use tp_node::Node;

/// A network taken apart: its wires, nodes, lines and ports.
#[derive(Drop)]
pub struct Apart {
    pub wires: Vec<Option<WireEnd>>,
    pub nodes: Vec<Node>,
    pub lines: Lines,
    pub ports: Vec<HostPort>,
}
