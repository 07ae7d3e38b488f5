//! A network's shape.

ghost use Rattle.std.specs.Prelude.{◌≡◌, ◌≤◌, true, Ok, IfOk, OnOk, MatchResult, length, map};
ghost use Rattle.tp_net.specs.Lower.{lines, is_topology, line_count, nothing_said, read_lines, read_text};
ghost use Rattle.tp_net.specs.NodeNames.{node_names};
ghost use Rattle.tp_net.specs.Parts.{if_topology, parts};
ghost use Rattle.tp_net.specs.Steps.{IsFaultOf, IsRead, IsStep};

use crate::declarations::Declarations;
use crate::ends::{MAX_LINES, port_line};
use crate::rules::is_topology;
use crate::words::next_line;
use arrayvec::ArrayVec;
use std::alloc::Global;
use std::marker::Model;
use tp_model::limits::{MAX_NODES, MAX_PORTS};
use tp_model::{NetFault, WireEnd};

/// A network's nodes, ports and wires. Nodes and ports are numbers. It takes no memory.
#[derive(Drop)]
pub struct Topology {
    pages: ArrayVec<u16, MAX_NODES>,
    ports: u8,
    wires: ArrayVec<Option<WireEnd>, MAX_LINES>,
}

impl Model for Topology {
    ghost use Rattle.std.specs.Prelude.{◌≡◌, true};
    ghost use Rattle.tp_model.specs.Topology.{Topology as Shape, is_topology};

    ghost Value = { Shape };

    ghost view = { λ topology. record { pages = topology.pages.items; ports = topology.ports; wires = topology.wires.items } };

    ghost invariant = { λ topology. is_topology (record { pages = topology.pages.items; ports = topology.ports; wires = topology.wires.items }) ≡ true };
}

impl Topology {
    pub(crate) fn new(
        pages: ArrayVec<u16, MAX_NODES>,
        ports: u8,
        wires: ArrayVec<Option<WireEnd>, MAX_LINES>,
    ) -> Topology
        requires { is_topology (record { pages = pages.items; ports = ports; wires = wires.items }) ≡ true }
        ensures { result ≡ record { pages = pages.items; ports = ports; wires = wires.items } }
    {
        Topology {
            pages,
            ports,
            wires,
        }
    }

    /// Makes the topology of `pages` of each node, `ports` ports, and `wires`, the end that receives each line; `None` if they break a
    /// rule.
    pub fn of_parts(
        pages: ArrayVec<u16, MAX_NODES>,
        ports: u8,
        wires: ArrayVec<Option<WireEnd>, MAX_LINES>,
    ) -> Option<Topology>
        ensures { result ≡ if_topology (parts pages.items ports wires.items) }
    {
        if is_topology(pages.as_slice(), ports, wires.as_slice()) {
            Some(Topology::new(pages, ports, wires))
        } else {
            None
        }
    }

    /// Reads a text that has a line for each node, each port and each wire. The answer is else its first fault in the order of its lines,
    /// or `Memory` if memory is out.
    pub fn read(alloc: Global, text: &[u8]) -> Result<Topology, NetFault>
        ensures { IsRead (read_text text.now) result }
    {
        let mut declared = Declarations::new(alloc);
        topology_in(&mut declared, alloc, text)
    }

    /// Reads a text as `read` does, and keeps its nodes' names.
    pub fn read_named(alloc: Global, text: &[u8]) -> Result<Named<'_>, NetFault>
        ensures topology { MatchResult result (λ found. read_text text.now ≡ Ok found.topology) (λ fault. IsFaultOf (read_text text.now) fault) }
        ensures names { IfOk result (λ found. map (λ name. name.now) found.names.items ≡ node_names text.now) }
    {
        let mut declared = Declarations::new(alloc);
        named_in(&mut declared, alloc, text)
    }

    /// Gives the pages of each node.
    pub fn pages(&self) -> &[u16]
        ensures value { result.now ≡ self.now.pages }
        ensures rules { is_topology self.now ≡ true }
        ensures few { length result.now ≤ MAX_NODES }
    {
        self.pages.as_slice()
    }

    /// Counts the host ports.
    pub fn port_count(&self) -> usize
        ensures value { result ≡ self.now.ports }
        ensures rules { is_topology self.now ≡ true }
        ensures few { result ≤ MAX_PORTS }
    {
        usize::from(self.ports)
    }

    /// Gives the end that receives each line, with the lines of the links before those of the ports.
    pub fn wires(&self) -> &[Option<WireEnd>]
        ensures value { result.now ≡ self.now.wires }
        ensures rules { is_topology self.now ≡ true }
        ensures few { length result.now ≤ MAX_LINES }
    {
        self.wires.as_slice()
    }

    /// Counts the lines.
    pub fn line_count(&self) -> usize
        ensures value { result ≡ line_count self.now }
        ensures bound { result ≤ MAX_LINES }
    {
        port_line(self.pages.len(), usize::from(self.ports))
    }
}

/// A topology, and the name that its text gives each node.
#[derive(Drop)]
pub struct Named<'a> {
    pub topology: Topology,
    pub names: Vec<&'a str>,
}

/// Reads what all lines of a text declare, after what was declared before.
fn declare<'a>(
    declared: &mut Declarations<'a>,
    alloc: Global,
    text: &'a [u8],
) -> Result<(), NetFault>
    ensures { IsStep (read_lines declared.old 1 (lines text.now)) declared.new result }
{
    let mut number = 1;
    let mut rest = text;
    while let Some((line, behind)) = next_line(rest) {
        declared.add_line(alloc, number, line)?;
        number += 1;
        rest = behind;
    }
    Ok(())
}

/// Gives the topology that a text declares, if nothing was declared before.
fn topology_in<'a>(
    declared: &mut Declarations<'a>,
    alloc: Global,
    text: &'a [u8],
) -> Result<Topology, NetFault>
    requires { declared.old ≡ nothing_said }
    ensures topology { IsRead (read_text text.now) result }
    ensures declared { OnOk result (read_lines nothing_said 1 (lines text.now) ≡ Ok declared.new) }
{
    declare(declared, alloc, text)?;
    declared.finish()
}

/// Gives that topology, and its nodes' names.
fn named_in<'a>(
    declared: &mut Declarations<'a>,
    alloc: Global,
    text: &'a [u8],
) -> Result<Named<'a>, NetFault>
    requires { declared.old ≡ nothing_said }
    ensures topology { MatchResult result (λ found. read_text text.now ≡ Ok found.topology) (λ fault. IsFaultOf (read_text text.now) fault) }
    ensures names { IfOk result (λ found. map (λ name. name.now) found.names.items ≡ node_names text.now) }
{
    let topology = topology_in(declared, alloc, text)?;
    let Ok(names) = declared.names(alloc) else {
        return Err(NetFault::Memory);
    };
    Ok(Named { topology, names })
}
