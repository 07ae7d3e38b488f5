//! The wires of all lines, by those of the links.

ghost use Rattle.std.specs.Prelude.{◌≡◌, ◌+◌, ◌*◌, ◌≤◌, ◌<◌, ◌++◌, map, length, position, true, IfSome};
ghost use Rattle.tp_area.specs.Lower.{list_all, range_with_len, array_vec_len, all_wires, end_of_number, is_port, port_wire};
ghost use Rattle.tp_area.specs.Ends.{is_end_number};

use crate::encoding::end::ends_of;
use arrayvec::ArrayVec;
use tp_model::limits::{MAX_NODES, MAX_PORTS};
use tp_model::{HeadVersion, WireEnd};
use tp_net::{MAX_LINES, end_of};

/// Whether the end of a wire is port `port`.
fn is_port(port: u8, end: Option<WireEnd>) -> bool
    ensures { result ≡ is_port port end }
{
    match end {
        Some(WireEnd::Port(other)) => other == port,
        _ => false,
    }
}

/// Gives the first line that leads to port `port`; `None` if none does.
fn line_to_port(links: &[Option<WireEnd>], port: u8) -> Option<usize>
    ensures value { result ≡ position (is_port port) links.now }
    ensures bound { IfSome result (λ line. line < length links.now) }
{
    links.iter().position(|end| is_port(port, *end))
}

/// Gives the link that names port `port`, by the wires of the links of `nodes` nodes; `None` if none does.
fn port_wire(nodes: usize, links: &[Option<WireEnd>], port: u8) -> Option<WireEnd>
    requires few { nodes ≤ MAX_NODES }
    requires all { length links.now ≤ 4 * nodes }
    ensures { result ≡ port_wire nodes links.now port }
{
    match line_to_port(links, port) {
        Some(line) => Some(end_of(nodes, line)),
        None => None,
    }
}

/// Puts the wires of `ports` ports after those of the links.
fn add_ports(
    nodes: usize,
    links: &[Option<WireEnd>],
    ports: u8,
    wires: &mut ArrayVec<Option<WireEnd>, MAX_LINES>,
)
    requires few { nodes ≤ MAX_NODES }
    requires all { length links.now ≤ 4 * nodes }
    requires room { array_vec_len wires.old + ports ≤ MAX_LINES }
    ensures { wires.new.items ≡ wires.old.items ++ map (port_wire nodes links.now) (range_with_len 0 ports) }
{
    for port in 0..ports {
        wires.push(port_wire(nodes, links, port));
    }
}

/// Gives the receivers of all lines, by the numbers of the ends to which the links of `nodes` nodes lead.
#[inline(never)]
pub(crate) fn wires_in(
    version: HeadVersion,
    nodes: u8,
    ports: u8,
    numbers: &[u16],
) -> ArrayVec<Option<WireEnd>, MAX_LINES>
    requires few { nodes ≤ MAX_NODES }
    requires few_ports { ports ≤ MAX_PORTS }
    requires there { length numbers.now ≡ 4 * nodes }
    requires ends { list_all (is_end_number version) numbers.now ≡ true }
    ensures { result.items ≡ all_wires nodes ports (map (end_of_number version) numbers.now) }
{
    let links = ends_of(version, numbers);
    let mut wires = ends_of(version, numbers);
    add_ports(usize::from(nodes), links.as_slice(), ports, &mut wires);
    wires
}
