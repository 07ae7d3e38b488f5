//! Markers onto lines.

ghost use Rattle.std.specs.Prelude.{◌≡◌, ◌≤◌, ◌+◌, ◌*◌, ◌^◌, length};
ghost use Rattle.tp_book.specs.Lower.{has_wire, sent, host_markers, node_markers};
ghost use Rattle.tp_book.specs.Room.{HasRoom};

use crate::{send_all, send_some};
use tp_model::{Token, WireEnd};
use tp_net::{Lines, link_line, port_line};

/// A Marker on each of a node's four lines.
const NODE_MARKERS: [(u8, Token); 4] = [
    (0, Token::Marker),
    (1, Token::Marker),
    (2, Token::Marker),
    (3, Token::Marker),
];

/// Sends a Marker on each wired line of a node.
pub fn mark_node(wires: &[Option<WireEnd>], lines: &mut Lines, node: u8)
    requires known { 4 * node + 4 ≤ length wires.now }
    requires there { length lines.old ≡ length wires.now }
    requires room { HasRoom (has_wire wires.now) lines.old (node_markers node) }
    ensures { lines.new ≡ sent (has_wire wires.now) lines.old (node_markers node) }
{
    send_all(wires, lines, link_line(node as usize, 0), &NODE_MARKERS);
}

/// Sends a Marker on the wired line of each of `ports` ports, in a network with `nodes` nodes.
pub fn mark_ports(wires: &[Option<WireEnd>], lines: &mut Lines, nodes: usize, ports: u8)
    requires few { nodes ≤ 2 ^ 32 }
    requires known { 4 * nodes + ports ≤ length wires.now }
    requires there { length lines.old ≡ length wires.now }
    requires room { HasRoom (has_wire wires.now) lines.old (host_markers nodes ports) }
    ensures { lines.new ≡ sent (has_wire wires.now) lines.old (host_markers nodes ports) }
{
    for done in 0..ports {
        let port = ports - 1 - done;
        let line = port_line(nodes, port as usize);
        send_some(wires, lines, line, Some(Token::Marker));
    }
}
