//! The cut of an area.

ghost use Rattle.std.specs.Prelude.{◌≡◌, ◌+◌, ◌*◌, ◌≤◌, ◌<◌, ◌^◌, ℕ, true, Ok, IfOk, map, length, sum_by};
ghost use Rattle.tp_recover.specs.Lower.{AreTrue, WereTrue, AllByRecursion, IsNodeOfBytes, area_start, areas_end, content_of, Counts, flights_in, image_length, t414_ends, base_of, cut_in, are_lines, IsCut, line_count, NUMBER_LIMIT, port_made, tokens_on};
ghost use Rattle.tp_recover.specs.Cuts.{network_of_cut, records_at};
ghost use Rattle.tp_recover.specs.Nodes.{live_node, AreAllThawed, HaveImages};
ghost use Rattle.tp_recover.specs.Ports.{ArePorts};
ghost use Rattle.tp_recover.specs.Reading.{has_read, ReadAnswer, LeavesAlone, LeavesNothingNew};

use crate::area::flights::{CutParts, flights};
use crate::area::line::read_lines;
use crate::area::node::read_nodes;
use crate::area::places::places_in;
use crate::area::port::read_ports;
use crate::unopened::Unopened;
use std::alloc::{AllocError, Global};
use tp_area::{Head, LineTokens, Places};
use tp_book::PortParts;
use tp_disk::Disk;
use tp_model::limits::{LINE_BYTES, MAX_NODES, MAX_PORTS, PORT_BYTES};
use tp_model::{OpenFault, Token, WireEnd};
use tp_net::MAX_LINES;
use tp_node::Node;

/// A network as a snapshot cut it: its nodes, the tokens on each line, and its ports.
#[derive(Drop)]
pub struct Cut {
    pub nodes: Vec<Node>,
    pub lines: Vec<Vec<Token>>,
    pub ports: Vec<PortParts>,
}

/// Gives the tokens on a line as a list.
fn token_list(alloc: Global, line: LineTokens) -> Result<Vec<Token>, AllocError>
    ensures { IfOk result (λ tokens. tokens.items ≡ tokens_on line) }
{
    match line {
        LineTokens::Empty => Ok(Vec::new(alloc)),
        LineTokens::Data(byte) => Vec::from_slice(alloc, &[Token::Data(byte)]),
        LineTokens::Ack => Vec::from_slice(alloc, &[Token::Ack]),
        LineTokens::DataAck(byte) => Vec::from_slice(alloc, &[Token::Data(byte), Token::Ack]),
        LineTokens::AckData(byte) => Vec::from_slice(alloc, &[Token::Ack, Token::Data(byte)]),
    }
}

/// Gives the tokens on each line as lists.
fn token_lists(alloc: Global, lines: &[LineTokens]) -> Result<Vec<Vec<Token>>, AllocError>
    ensures { IfOk result (λ lists. map (λ list. list.items) lists.items ≡ map tokens_on lines.now) }
{
    let mut lists = Vec::new(alloc);
    for line in lines {
        let list = token_list(alloc, *line)?;
        lists.push(list)?;
    }
    Ok(lists)
}

/// Reads the records of a cut of `base` entries: of nodes with `pages` pages each, of the lines with `wires`, and of `ports`
/// ports.
fn read_records<D: Disk>(
    alloc: Global,
    disk: &mut D,
    pages: &[u16],
    wires: &[Option<WireEnd>],
    ports: usize,
    base: u64,
    places: Places,
) -> Result<Cut, Unopened>
    requires few { length wires.now ≤ MAX_LINES }
    requires nodes { places.nodes + sum_by image_length pages.now ≤ places.lines }
    requires lines { places.lines + LINE_BYTES * length wires.now ≤ places.ports }
    requires inside { places.ports + PORT_BYTES * ports ≤ D.size_of disk.old }
    requires counted { places.ports + PORT_BYTES * ports < 2 ^ 64 }
    ensures counts { Counts (has_read result) (D.size_of disk.old) (D.size_of disk.new) (D.failures_of disk.old) (D.failures_of disk.new) }
    ensures premise { WereTrue (D.reads disk.old) (D.reads disk.new) }
    ensures kept { LeavesAlone result (D.state disk.old).now (D.state disk.new).now }
    ensures leaves { LeavesNothingNew (D.state disk.old) (D.state disk.new) }
    ensures nodes { IfOk result (λ cut. length cut.nodes.items ≡ length pages.now) }
    ensures ports { IfOk result (λ cut. length cut.ports.items ≡ ports) }
    ensures thawed { IfOk result (λ cut. AreAllThawed cut.nodes.items) }
    ensures images { IfOk result (λ cut. HaveImages pages.now (map live_node cut.nodes.items)) }
    ensures lines { IfOk result (λ cut. are_lines wires.now (map (λ line. line.items) cut.lines.items) ≡ true) }
    ensures reached { IfOk result (λ cut. ArePorts base (map port_made cut.ports.items)) }
    ensures is { AreTrue (D.reads disk.new) → ReadAnswer (network_of_cut wires.now) (records_at pages.now wires.now ports base places (D.state disk.old).now.bytes) result }
{
    let nodes = read_nodes(alloc, disk, places.nodes, pages)?;
    let found = read_lines(alloc, disk, places.lines, wires)?;
    let ports = read_ports(alloc, disk, places.ports, base, ports)?;
    match token_lists(alloc, &found) {
        Ok(lines) => Ok(Cut {
            nodes,
            lines,
            ports,
        }),
        Err(_) => Err(Unopened::Memory),
    }
}

/// Tests that on each line the byte under way is in one place. The first line that fails the test is damaged; the record of line 0 is at
/// `at`.
fn check_flights(wires: &[Option<WireEnd>], cut: &Cut, at: u64) -> Result<(), OpenFault>
    requires few { length cut.now.nodes.items ≤ MAX_NODES }
    requires few_ports { length cut.now.ports.items ≤ MAX_PORTS }
    requires wired { length wires.now ≡ 4 * length cut.now.nodes.items + length cut.now.ports.items }
    requires fits { at + LINE_BYTES * length wires.now < 2 ^ 64 }
    ensures { result ≡ flights_in t414_ends (network_of_cut wires.now cut.now) at 0 (length wires.now) }
{
    let parts = CutParts {
        wires,
        nodes: &cut.nodes,
        lines: &cut.lines,
        ports: &cut.ports,
    };
    flights(parts, at)
}

/// Reads the cut of an area, which has `base` entries.
///
/// What is read was tested, so it is sound and thawed whatever the device's reads gave.
pub fn read_cut<D: Disk>(
    alloc: Global,
    disk: &mut D,
    head: &Head,
    second: bool,
    base: u64,
) -> Result<Cut, Unopened>
    requires { areas_end head.now.areas ≤ D.size_of disk.old }
    ensures counts { Counts (has_read result) (D.size_of disk.old) (D.size_of disk.new) (D.failures_of disk.old) (D.failures_of disk.new) }
    ensures premise { WereTrue (D.reads disk.old) (D.reads disk.new) }
    ensures kept { LeavesAlone result (D.state disk.old).now (D.state disk.new).now }
    ensures leaves { LeavesNothingNew (D.state disk.old) (D.state disk.new) }
    ensures nodes { IfOk result (λ cut. length cut.nodes.items ≡ length head.now.topology.pages) }
    ensures ports { IfOk result (λ cut. length cut.ports.items ≡ head.now.topology.ports) }
    ensures sound { IfOk result (λ cut. (at : ℕ) × (flights_in t414_ends (network_of_cut head.now.topology.wires cut) at 0 (line_count head.now.topology) ≡ Ok tt)) }
    ensures cut { base < NUMBER_LIMIT → IfOk result (λ cut. IsCut t414_ends head.now.topology base (network_of_cut head.now.topology.wires cut)) }
    ensures images { IfOk result (λ cut. AllByRecursion IsNodeOfBytes (map live_node cut.nodes.items)) }
    ensures thawed { IfOk result (λ cut. AreAllThawed cut.nodes.items) }
    ensures is { AreTrue (D.reads disk.new) → base ≡ base_of (content_of head.now.areas second (D.state disk.old).now.bytes)
        → ReadAnswer (network_of_cut head.now.topology.wires) (cut_in t414_ends head.now.topology (area_start head.now.areas second + 1) (content_of head.now.areas second (D.state disk.old).now.bytes)) result }
{
    let topology = head.topology();
    let places = places_in(head, second);
    let cut = read_records(
        alloc,
        disk,
        topology.pages(),
        topology.wires(),
        topology.port_count(),
        base,
        places,
    )?;
    match check_flights(topology.wires(), &cut, places.lines) {
        Ok(()) => Ok(cut),
        Err(fault) => Err(Unopened::Fault(fault)),
    }
}
