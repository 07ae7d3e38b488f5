//! The rules of a topology.

ghost use Rattle.std.specs.Prelude.{◌≡◌, ◌+◌, ◌*◌, ◌≤◌, ◌<◌, ◌^◌, ◌&&◌, nat_le, length};
ghost use Rattle.tp_net.specs.Lower.{option_map, list_all, line_of, receiver, all_lead_back, is_end, is_line, is_page_count, is_topology, joins_link, leads_back};

use crate::ends::{back, line_of, port_line};
use tp_model::WireEnd;
use tp_model::limits::{MAX_NODES, MAX_PAGES, MAX_PORTS, MIN_PAGES};

/// Whether `number` is between `least` and `most`.
fn is_within(number: usize, least: usize, most: usize) -> bool
    ensures { result ≡ (nat_le least number && nat_le number most) }
{
    least <= number && number <= most
}

/// Whether a node may have `pages` pages.
fn is_page_count(pages: u16) -> bool
    ensures { result ≡ is_page_count pages }
{
    is_within(usize::from(pages), MIN_PAGES, MAX_PAGES)
}

/// Whether nodes may have `pages` pages each.
fn are_page_counts(pages: &[u16]) -> bool
    ensures { result ≡ list_all is_page_count pages.now }
{
    pages.iter().all(|count| is_page_count(*count))
}

/// Whether `end` exists, with `nodes` nodes and `ports` ports.
fn is_end(nodes: usize, ports: u8, end: WireEnd) -> bool
    ensures { result ≡ is_end nodes ports end }
{
    match end {
        WireEnd::Link(node, link) => usize::from(node) < nodes && link < 4,
        WireEnd::Port(port) => port < ports,
    }
}

/// Whether the sender of line `line` and the end that receives it aren't both ports.
fn joins_link(nodes: usize, line: usize, end: WireEnd) -> bool
    requires { nodes < 2 ^ 32 }
    ensures { result ≡ joins_link nodes line end }
{
    match end {
        WireEnd::Link(..) => true,
        WireEnd::Port(_) => line < port_line(nodes, 0),
    }
}

/// Whether the wire at `end` leads to the sender of line `line`.
fn comes_back(nodes: usize, wires: &[Option<WireEnd>], line: usize, end: WireEnd) -> bool
    requires { nodes < 2 ^ 32 }
    ensures { result ≡ is_line line (option_map (line_of nodes) (receiver wires.now (line_of nodes end))) }
{
    match back(wires, nodes, line_of(nodes, end)) {
        Some(other) => other == line,
        None => false,
    }
}

/// Whether the wire of line `line` leads to an end that exists, not from a port to a port, and leads back from there.
fn leads_back(
    nodes: usize,
    ports: u8,
    wires: &[Option<WireEnd>],
    line: usize,
    end: Option<WireEnd>,
) -> bool
    requires { nodes < 2 ^ 32 }
    ensures { result ≡ leads_back nodes ports wires.now line end }
{
    match end {
        None => true,
        Some(end) => {
            is_end(nodes, ports, end)
                && joins_link(nodes, line, end)
                && comes_back(nodes, wires, line, end)
        }
    }
}

/// Whether the wire of each line leads back like this.
fn all_lead_back(nodes: usize, ports: u8, wires: &[Option<WireEnd>]) -> bool
    requires { nodes < 2 ^ 32 }
    ensures { result ≡ all_lead_back nodes ports wires.now 0 wires.now }
{
    for (line, end) in wires.iter().enumerate() {
        if !leads_back(nodes, ports, wires, line, *end) {
            return false;
        }
    }
    true
}

/// Whether `pages` of each node, `ports` ports and `wires`, the receiver of each line, are a topology: the numbers are within their limits,
/// and the wires agree both ways.
#[tactic(auto, unfolding(tp_model::specs::Topology::is_topology))]
pub(crate) fn is_topology(pages: &[u16], ports: u8, wires: &[Option<WireEnd>]) -> bool
    ensures { result ≡ is_topology (record { pages = pages.now; ports = ports; wires = wires.now }) }
{
    let nodes = pages.len();
    is_within(nodes, 1, MAX_NODES)
        && is_within(usize::from(ports), 1, MAX_PORTS)
        && are_page_counts(pages)
        && wires.len() == port_line(nodes, usize::from(ports))
        && all_lead_back(nodes, ports, wires)
}
