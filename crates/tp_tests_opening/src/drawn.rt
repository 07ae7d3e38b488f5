//! Devices in memory, from which a network begins.

ghost use Rattle.std.specs.Prelude.{◌<◌, ◌≤◌};

use crate::machines::{Chance, Task, image};
use arrayvec::ArrayVec;
use std::alloc::Global;
use std::test::Fail;
use tp_area::format;
use tp_disk::MemDisk;
use tp_model::WireEnd;
use tp_model::limits::NARROW_HEAD_BYTES;
use tp_net::{MAX_LINES, Topology};

/// The bytes of an area.
const AREA: u64 = 64_000;

/// A device that was just formatted.
pub(crate) fn formatted(
    alloc: Global,
    topology: &Topology,
    images: &[Vec<u8>],
) -> Result<MemDisk, Fail> {
    let mut disk = MemDisk::zeroed(alloc, NARROW_HEAD_BYTES + 2 * AREA as usize)?;
    // A topology keeps its rules: its page counts say so, which `format` asks.
    let _rules = topology.pages();
    format(alloc, &mut disk, topology, images, AREA)?;
    Ok(disk)
}

/// The device of a network of images.
fn device_of(alloc: Global, text: &[u8], images: &[Vec<u8>]) -> Result<MemDisk, Fail> {
    let topology = Topology::read(alloc, text)?;
    let disk = formatted(alloc, &topology, images);
    disk
}

/// The device of nodes with tasks.
pub(crate) fn tasks_device(alloc: Global, text: &[u8], tasks: &[&[Task]]) -> Result<MemDisk, Fail> {
    let mut images = Vec::new(alloc);
    for of_node in tasks {
        images.push(image(alloc, *of_node)?)?;
    }
    let disk = device_of(alloc, text, &images);
    disk
}

/// The end with a number: the links of `nodes` nodes come first, and then the ports.
fn end(nodes: u8, number: u8) -> WireEnd {
    if number / 4 < nodes {
        WireEnd::Link(number / 4, number % 4)
    } else {
        WireEnd::Port(number.saturating_sub(nodes.saturating_mul(4)))
    }
}

/// Draws two ends of `ends`, and wires them if one is a node's and neither is wired.
fn draw_wire(chance: &mut Chance, nodes: u8, ends: u8, drawn: &mut [Option<WireEnd>; MAX_LINES])
    requires some { 1 < ends }
    requires most { ends ≤ 35 }
{
    let one = chance.below(ends - 1);
    let other = one + 1 + chance.below(ends - 1 - one);
    if one / 4 < nodes && drawn[one as usize].is_none() && drawn[other as usize].is_none() {
        drawn[one as usize] = Some(end(nodes, other));
        drawn[other as usize] = Some(end(nodes, one));
    }
}

/// A network of nodes of these pages, with these wires.
fn topology_of(of_nodes: &[u16], ports: u8, ends: &[Option<WireEnd>]) -> Option<Topology> {
    let mut pages = ArrayVec::new();
    let mut wires = ArrayVec::new();
    if pages.try_extend_from_slice(of_nodes).is_err()
        || wires.try_extend_from_slice(ends).is_err()
    {
        return None;
    }
    Topology::of_parts(pages, ports, wires)
}

/// A network of nodes of four pages, with wires between ends that are drawn.
pub(crate) fn drawn_topology(chance: &mut Chance, nodes: u8, ports: u8) -> Option<Topology> {
    let (nodes, ports) = (nodes.clamp(1, 8), ports.clamp(1, 3));
    let ends = 4 * nodes + ports;
    let mut drawn = [None; MAX_LINES];
    for _tried in 0..2 * ends {
        draw_wire(chance, nodes, ends, &mut drawn);
    }
    let four = [4; 8];
    topology_of(&four[..nodes as usize], ports, &drawn[..ends as usize])
}
