//! What the lines of a topology's text have declared.

ghost use Rattle.std.specs.Prelude.{◌≡◌, ◌<◌, ◌≤◌, ◌+◌, ◌*◌, [], ◌∷◌, ◌++◌, false, true, IfSome, IfErr, IfOk, OnOk, length, map};
ghost use Rattle.tp_net.specs.Lower.{option_map, after_ends, after_line, after_node, after_port, after_wire, after_words, are_ports, end_named, finished, end_has_wire, is_known, wire_joined, node_named, other_end, port_named, same_end, nothing_said, topology_of, end_of, is_topology};
ghost use Rattle.tp_net.specs.Steps.{IsRead, IsStep};

use crate::ends::{MAX_LINES, end_of, port_line};
use crate::topology::Topology;
use crate::words::{EndName, end_in, has_space_around, is_skipped, name_in, pages_in, words};
use arrayvec::ArrayVec;
use indexmap::{IndexMap, IndexSet};
use std::alloc::{AllocError, Global};
use std::marker::Model;
use tp_model::limits::{MAX_NODES, MAX_PORTS};
use tp_model::{NetFault, WireEnd};

/// What has been declared: each node with its pages, and each port, by their names and in their order; and each wire's
/// ends.
#[derive(Drop)]
pub(crate) struct Declarations<'a> {
    nodes: IndexMap<&'a str, u16>,
    ports: IndexSet<&'a str>,
    wires: Vec<(WireEnd, WireEnd)>,
}

impl<'a> Model for Declarations<'a> {
    ghost use Rattle.std.specs.Prelude.{◌≤◌, length};
    ghost use Rattle.tp_net.specs.Lower.{Words, MAX_NODES, MAX_PORTS};
    ghost use Rattle.tp_net.specs.Steps.{names_in, pages_by_name};

    ghost Value = { Words };

    ghost view = { λ names. record { nodes = pages_by_name names.nodes; ports = names_in names.ports; wires = names.wires.items } };

    ghost invariant = { λ names. (length names.nodes.entries ≤ MAX_NODES) × (length names.ports.keys ≤ MAX_PORTS) };
}

impl<'a> Declarations<'a> {
    pub(crate) fn new(alloc: Global) -> Declarations<'a>
        ensures { result ≡ nothing_said }
    {
        Declarations {
            nodes: IndexMap::new(alloc),
            ports: IndexSet::new(alloc),
            wires: Vec::new(alloc),
        }
    }

    /// Gives the number of the node with this name; `None` if there is none.
    fn node_named(&self, name: &str) -> Option<usize>
        ensures value { result ≡ node_named self.now name.now }
        ensures bound { IfSome result (λ i. i < MAX_NODES) }
    {
        self.nodes.get_index_of(name)
    }

    /// Gives the number of the port with this name; `None` if there is none.
    fn port_named(&self, name: &str) -> Option<usize>
        ensures value { result ≡ port_named self.now name.now }
        ensures bound { IfSome result (λ p. p < MAX_PORTS) }
    {
        self.ports.get_index_of(name)
    }

    /// Whether a node or a port has this name.
    fn is_known(&self, name: &str) -> bool
        ensures { result ≡ is_known self.now name.now }
    {
        self.node_named(name).is_some() || self.port_named(name).is_some()
    }

    /// Gives the end with this name; `None` for a port with the number of a link, for a node without one, and for an unknown name.
    fn end_named(&self, end: EndName<'_>) -> Option<WireEnd>
        ensures { result ≡ end_named self.now (end.entry.name.now, end.entry.link) }
    {
        match end.link {
            Some(link) => {
                let node = self.node_named(end.name)?;
                Some(WireEnd::Link(node as u8, link))
            }
            None => {
                let port = self.port_named(end.name)?;
                Some(WireEnd::Port(port as u8))
            }
        }
    }

    /// Whether the end has a wire.
    fn has_wire(&self, end: WireEnd) -> bool
        ensures { result ≡ end_has_wire self.now end }
    {
        self.wires
            .iter()
            .any(|wire| same_end(end, wire.0) || same_end(end, wire.1))
    }

    /// Reads one more line, whose number counts from 1.
    pub(crate) fn add_line(
        &mut self,
        alloc: Global,
        number: u64,
        line: &'a [u8],
    ) -> Result<(), NetFault>
        ensures { IsStep (after_line self.old number line.now) self.new result }
    {
        if is_skipped(line) {
            return Ok(());
        }
        if has_space_around(line) {
            return Err(NetFault::Syntax(number));
        }
        let Ok(words) = words(alloc, line) else {
            return Err(NetFault::Memory);
        };
        self.add_words(number, words.as_slice())
    }

    /// Declares what a line's words say.
    fn add_words(&mut self, number: u64, words: &[&'a [u8]]) -> Result<(), NetFault>
        ensures { IsStep (after_words self.old number (map (λ word. word.now) words.now)) self.new result }
    {
        match words {
            [kind, name] => self.add_pair(number, kind, name),
            [kind, first, second] => self.add_triple(number, kind, first, second),
            _ => Err(NetFault::Syntax(number)),
        }
    }

    /// Declares a port by a line of two words.
    fn add_pair(&mut self, number: u64, kind: &[u8], name: &'a [u8]) -> Result<(), NetFault>
        ensures { IsStep (after_words self.old number (kind.now ∷ name.now ∷ [])) self.new result }
    {
        if kind == b"port".as_slice() {
            self.add_port(number, name)
        } else {
            Err(NetFault::Syntax(number))
        }
    }

    /// Declares a node or a wire by a line of three words.
    fn add_triple(
        &mut self,
        number: u64,
        kind: &[u8],
        first: &'a [u8],
        second: &[u8],
    ) -> Result<(), NetFault>
        ensures { IsStep (after_words self.old number (kind.now ∷ first.now ∷ second.now ∷ [])) self.new result }
    {
        if kind == b"node".as_slice() {
            self.add_node(number, first, second)
        } else if kind == b"wire".as_slice() {
            self.add_wire(number, first, second)
        } else {
            Err(NetFault::Syntax(number))
        }
    }

    /// Declares a node. A 65th is `TooMany`.
    fn add_node(&mut self, number: u64, name: &'a [u8], pages: &[u8]) -> Result<(), NetFault>
        ensures { IsStep (after_node self.old number name.now pages.now) self.new result }
    {
        let (Some(name), Some(pages)) = (name_in(name), pages_in(pages)) else {
            return Err(NetFault::Syntax(number));
        };
        if self.is_known(name) {
            return Err(NetFault::Syntax(number));
        }
        if self.nodes.len() >= MAX_NODES {
            return Err(NetFault::TooMany);
        }
        self.keep_node(name, pages)
    }

    fn keep_node(&mut self, name: &'a str, pages: u16) -> Result<(), NetFault>
        requires new { is_known self.old name.now ≡ false }
        requires room { length self.old.nodes < MAX_NODES }
        ensures ok { OnOk result (self.new ≡ record self.old { nodes = self.old.nodes ++ (name.now, pages) ∷ [] }) }
        ensures err { IfErr result (λ fault. fault ≡ NetFault.Memory) }
    {
        let Ok(_) = self.nodes.insert(name, pages) else {
            return Err(NetFault::Memory);
        };
        Ok(())
    }

    /// Declares a port. A 9th is `TooMany`.
    fn add_port(&mut self, number: u64, name: &'a [u8]) -> Result<(), NetFault>
        ensures { IsStep (after_port self.old number name.now) self.new result }
    {
        let Some(name) = name_in(name) else {
            return Err(NetFault::Syntax(number));
        };
        if self.is_known(name) {
            return Err(NetFault::Syntax(number));
        }
        if self.ports.len() >= MAX_PORTS {
            return Err(NetFault::TooMany);
        }
        self.keep_port(name)
    }

    fn keep_port(&mut self, name: &'a str) -> Result<(), NetFault>
        requires new { is_known self.old name.now ≡ false }
        requires room { length self.old.ports < MAX_PORTS }
        ensures ok { OnOk result (self.new ≡ record self.old { ports = self.old.ports ++ name.now ∷ [] }) }
        ensures err { IfErr result (λ fault. fault ≡ NetFault.Memory) }
    {
        let Ok(_) = self.ports.insert(name) else {
            return Err(NetFault::Memory);
        };
        Ok(())
    }

    /// Declares a wire between two ends.
    fn add_wire(&mut self, number: u64, first: &[u8], second: &[u8]) -> Result<(), NetFault>
        ensures { IsStep (after_wire self.old number first.now second.now) self.new result }
    {
        let (Some(first), Some(second)) = (end_in(first), end_in(second)) else {
            return Err(NetFault::Syntax(number));
        };
        if !(self.is_known(first.name) && self.is_known(second.name)) {
            return Err(NetFault::UnknownNode);
        }
        let (Some(first), Some(second)) = (self.end_named(first), self.end_named(second)) else {
            return Err(NetFault::Syntax(number));
        };
        self.join(number, first, second)
    }

    /// Joins two ends by a wire. `TwoWires` if an end already has one, or both ends are one.
    fn join(&mut self, number: u64, first: WireEnd, second: WireEnd) -> Result<(), NetFault>
        ensures { IsStep (wire_joined self.old number (Some first) (Some second)) self.new result }
    {
        if are_ports(first, second) {
            return Err(NetFault::Syntax(number));
        }
        if same_end(first, second) || self.has_wire(first) || self.has_wire(second) {
            return Err(NetFault::TwoWires);
        }
        let Ok(()) = self.wires.push((first, second)) else {
            return Err(NetFault::Memory);
        };
        Ok(())
    }

    /// Gives the pages of each node.
    fn pages(&self) -> ArrayVec<u16, MAX_NODES>
        ensures { result.items ≡ map (λ node. node.1) self.now.nodes }
    {
        let mut pages = ArrayVec::new();
        for count in self.nodes.values().copied() {
            pages.push(count);
        }
        pages
    }

    /// Gives the name of each node.
    pub(crate) fn names(&self, alloc: Global) -> Result<Vec<&'a str>, AllocError>
        ensures { IfOk result (λ names. map (λ name. name.now) names.items ≡ map (λ node. node.0) self.now.nodes) }
    {
        self.nodes.keys().copied().collect(alloc)
    }

    /// Gives the end that receives each line.
    fn receivers(&self) -> ArrayVec<Option<WireEnd>, MAX_LINES>
        ensures { result.items ≡ (topology_of self.now).wires }
    {
        let nodes = self.nodes.len();
        let count = port_line(nodes, self.ports.len());
        let mut ends = ArrayVec::new();
        for line in 0..count {
            ends.push(other_end(end_of(nodes, line), self.wires.as_slice()));
        }
        ends
    }

    /// Gives the topology that was declared.
    pub(crate) fn finish(&self) -> Result<Topology, NetFault>
        requires { IfOk (finished self.now) (λ t. is_topology t ≡ true) }
        ensures { IsRead (finished self.now) result }
    {
        if self.nodes.is_empty() || self.ports.is_empty() {
            return Err(NetFault::Syntax(0));
        }
        let ports = self.ports.len() as u8;
        Ok(Topology::new(self.pages(), ports, self.receivers()))
    }
}

/// Gives the other end of the wire at an end; `None` if there is no wire.
fn other_end(end: WireEnd, wires: &[(WireEnd, WireEnd)]) -> Option<WireEnd>
    ensures { result ≡ other_end end wires.now }
{
    for wire in wires {
        if same_end(end, wire.0) {
            return Some(wire.1);
        }
        if same_end(end, wire.1) {
            return Some(wire.0);
        }
    }
    None
}

/// Whether two ends are one.
fn same_end(first: WireEnd, second: WireEnd) -> bool
    ensures { result ≡ same_end first second }
{
    first == second
}

/// Whether both ends are ports.
fn are_ports(first: WireEnd, second: WireEnd) -> bool
    ensures { result ≡ are_ports first second }
{
    matches!((first, second), (WireEnd::Port(_), WireEnd::Port(_)))
}
