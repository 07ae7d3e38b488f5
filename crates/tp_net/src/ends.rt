//! The lines of a network by their ends.

ghost use Rattle.std.specs.Prelude.{◌≡◌, ◌+◌, ◌*◌, ◌≤◌, ◌<◌, ◌^◌, IfSome, length};
ghost use Rattle.tp_net.specs.Lower.{option_map, line_of, receiver, end_of, MAX_PORTS};

use tp_model::WireEnd;
use tp_model::limits::{MAX_NODES, MAX_PORTS};

/// The most lines of a network.
pub const MAX_LINES: usize = 4 * MAX_NODES + MAX_PORTS;

/// Gives the line that link `link` of node `node` sends.
pub fn link_line(node: usize, link: usize) -> usize
    requires node { node < 2 ^ 32 }
    requires link { link < 2 ^ 32 }
    ensures { result ≡ 4 * node + link }
{
    4 * node + link
}

/// Gives the line that port `port` sends, with `nodes` nodes.
pub fn port_line(nodes: usize, port: usize) -> usize
    requires nodes { nodes ≤ 2 ^ 32 }
    requires port { port < 2 ^ 32 }
    ensures { result ≡ 4 * nodes + port }
{
    4 * nodes + port
}

/// Gives the line that `end` sends, with `nodes` nodes.
pub fn line_of(nodes: usize, end: WireEnd) -> usize
    requires { nodes ≤ 2 ^ 32 }
    ensures value { result ≡ line_of nodes end }
    ensures bound { result < 4 * nodes + 2 ^ 11 }
{
    match end {
        WireEnd::Link(node, link) => link_line(usize::from(node), usize::from(link)),
        WireEnd::Port(port) => port_line(nodes, usize::from(port)),
    }
}

/// Gives the end that sends line `line`, with `nodes` nodes.
pub fn end_of(nodes: usize, line: usize) -> WireEnd
    requires few { nodes ≤ MAX_NODES }
    requires there { line < 4 * nodes + MAX_PORTS }
    ensures { result ≡ end_of nodes line }
{
    if line < 4 * nodes {
        WireEnd::Link((line / 4) as u8, (line % 4) as u8)
    } else {
        WireEnd::Port((line - 4 * nodes) as u8)
    }
}

/// Gives the end that receives line `line`, by the receivers of all lines; `None` if the line has no wire or doesn't exist.
pub fn receiver(wires: &[Option<WireEnd>], line: usize) -> Option<WireEnd>
    ensures { result ≡ receiver wires.now line }
{
    match wires.get(line) {
        Some(end) => *end,
        None => None,
    }
}

/// Gives the line that comes back on the wire of line `line`, with `nodes` nodes; `None` if that line has no wire.
pub fn back(wires: &[Option<WireEnd>], nodes: usize, line: usize) -> Option<usize>
    requires { nodes < 2 ^ 32 }
    ensures value { result ≡ option_map (line_of nodes) (receiver wires.now line) }
    ensures bound { IfSome result (λ other. other < 4 * nodes + 2 ^ 11) }
{
    match receiver(wires, line) {
        Some(end) => Some(line_of(nodes, end)),
        None => None,
    }
}
