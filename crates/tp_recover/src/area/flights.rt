//! Whether a cut is one of a sound network.

ghost use Rattle.std.specs.Prelude.{◌≡◌, ◌+◌, ◌*◌, ◌^◌, ◌<◌, ◌≤◌, length};
ghost use Rattle.tp_recover.specs.Lower.{back, on_line, t414_ends, datas, acks, end_waits, end_holds, is_in_one_place, flights_in};
ghost use Rattle.tp_recover.specs.Parts.{network_of_parts};

use tp_book::PortParts;
use tp_model::limits::{LINE_BYTES, MAX_NODES, MAX_PORTS};
use tp_model::{OpenFault, Token, WireEnd};
use tp_net::port_line;
use tp_node::Node;

/// Counts the tokens that are Data.
fn datas(tokens: &[Token]) -> usize
    ensures { result ≡ datas tokens.now }
{
    let mut count = 0;
    for token in tokens {
        if let Token::Data(_) = token {
            count += 1;
        }
    }
    count
}

/// Counts the tokens that are acknowledges.
fn acks(tokens: &[Token]) -> usize
    ensures { result ≡ acks tokens.now }
{
    let mut count = 0;
    for token in tokens {
        if let Token::Ack = token {
            count += 1;
        }
    }
    count
}

/// The parts of a cut as they are read: the receiver of each line, the nodes, the tokens on each line, the ports.
#[derive(Clone, Copy)]
pub(crate) struct CutParts<'a> {
    pub(crate) wires: &'a [Option<WireEnd>],
    pub(crate) nodes: &'a [Node],
    pub(crate) lines: &'a [Vec<Token>],
    pub(crate) ports: &'a [PortParts],
}

/// Whether the end that sends a line waits for an acknowledge.
fn end_waits(parts: CutParts<'_>, line: usize) -> bool
    requires few { length parts.nodes.now ≤ MAX_NODES }
    requires there { line < 4 * length parts.nodes.now + length parts.ports.now }
    ensures { result ≡ end_waits t414_ends (network_of_parts parts.entry) line }
{
    let links = port_line(parts.nodes.len(), 0);
    if line < links {
        parts.nodes[line / 4].waits((line % 4) as u8)
    } else {
        !parts.ports[line - links].pending.is_empty()
    }
}

/// Whether the end that sends a line holds a byte that came in.
fn end_holds(parts: CutParts<'_>, line: usize) -> bool
    requires few { length parts.nodes.now ≤ MAX_NODES }
    ensures { result ≡ end_holds t414_ends (network_of_parts parts.entry) line }
{
    let links = port_line(parts.nodes.len(), 0);
    if line < links {
        parts.nodes[line / 4].holds((line % 4) as u8)
    } else {
        false
    }
}

/// Gives the tokens on a line.
fn on_line<'a>(parts: CutParts<'a>, line: usize) -> &'a [Token]
    ensures { result.now ≡ on_line (network_of_parts parts.entry).lines line }
{
    match parts.lines.get(line) {
        Some(tokens) => tokens.as_slice(),
        None => &[],
    }
}

/// Gives the line that comes back on the wire of line `line`; `None` without a wire.
fn back(parts: CutParts<'_>, line: usize) -> Option<usize>
    requires { length parts.nodes.now ≤ MAX_NODES }
    ensures { result ≡ back (network_of_parts parts.entry) line }
{
    tp_net::back(parts.wires, parts.nodes.len(), line)
}

/// Whether the byte under way on a line's wire, in its direction, is in one place.
fn is_in_one_place(parts: CutParts<'_>, line: usize) -> bool
    requires few { length parts.nodes.now ≤ MAX_NODES }
    requires wired { length parts.wires.now ≡ 4 * length parts.nodes.now + length parts.ports.now }
    requires there { line < length parts.wires.now }
    ensures { result ≡ is_in_one_place t414_ends (network_of_parts parts.entry) line (back (network_of_parts parts.entry) line) }
{
    let Some(other) = back(parts, line) else {
        return !end_holds(parts, line);
    };
    let waits = u128::from(end_waits(parts, line));
    let held = u128::from(end_holds(parts, other));
    let sent = datas(on_line(parts, line)) as u128;
    waits == sent + acks(on_line(parts, other)) as u128 + held
}

/// Tests that on each line the byte under way is in one place. The first line that fails the test is damaged; the record of line 0 is at
/// `at`.
pub(crate) fn flights(parts: CutParts<'_>, at: u64) -> Result<(), OpenFault>
    requires few { length parts.nodes.now ≤ MAX_NODES }
    requires few_ports { length parts.ports.now ≤ MAX_PORTS }
    requires wired { length parts.wires.now ≡ 4 * length parts.nodes.now + length parts.ports.now }
    requires fits { at + LINE_BYTES * length parts.wires.now < 2 ^ 64 }
    ensures { result ≡ flights_in t414_ends (network_of_parts parts.entry) at 0 (length parts.entry.wires.now) }
{
    for line in 0..parts.wires.len() {
        if !is_in_one_place(parts, line) {
            return Err(OpenFault::Damaged(at + (LINE_BYTES * line) as u64));
        }
    }
    Ok(())
}
