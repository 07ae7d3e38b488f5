//! Where areas and the records of a cut are.

ghost use Rattle.std.specs.Prelude.{◌≡◌, ◌+◌, ◌^◌, ◌<◌, ◌≤◌, true, length};
ghost use Rattle.tp_area.specs.Lower.{area_start, areas_of_length, groups_place, lines_place, nodes_place, ports_place, is_topology, MAX_PAGES};
ghost use Rattle.tp_area.specs.Pieces.{piece_place};

use crate::encoding::front::FIELDS_BYTES;
use crate::encoding::version::head_length;
use crate::room::{cut_length, images_bytes, images_length};
use tp_model::limits::{AREA_HEAD_BYTES, IMAGE_HEAD_BYTES, LINE_BYTES, PAGE_BYTES};
use tp_model::{HeadVersion, TwoAreas};
use tp_net::Topology;

/// Gives the areas of `length` bytes each after a head of version `version`.
pub fn areas_of_length(version: HeadVersion, length: u64) -> TwoAreas
    ensures { result ≡ areas_of_length version length }
{
    TwoAreas {
        first: head_length(version) as u64,
        length,
    }
}

/// Tells where an area begins: the first one, or the second one.
pub fn area_start(areas: TwoAreas, second: bool) -> u64
    requires { areas.first + areas.length < 2 ^ 64 }
    ensures { result ≡ area_start areas second }
{
    if second {
        areas.first + areas.length
    } else {
        areas.first
    }
}

/// Tells where piece `piece` of the image of node `node` is, counted from after an area's gate. Piece 0 is the image's head, and pieces
/// from 1 on are its pages.
pub fn piece_place(topology: &Topology, node: usize, piece: usize) -> u64
    requires node { node < length topology.now.pages }
    requires piece { piece ≤ MAX_PAGES }
    ensures value { result ≡ piece_place topology.now node piece }
    ensures bound { result < 2 ^ 32 }
{
    let first = FIELDS_BYTES as u64 + images_bytes(&topology.pages()[..node]);
    if piece == 0 {
        first
    } else {
        first + (IMAGE_HEAD_BYTES + PAGE_BYTES * (piece - 1)) as u64
    }
}

/// Where the first node's image, the first line's record, the first port's record and the first group's gate are.
#[derive(Clone, Copy)]
pub struct Places {
    pub nodes: u64,
    pub lines: u64,
    pub ports: u64,
    pub groups: u64,
}

impl Places {
    /// Gives the places in an area whose content, which is all after its gate, begins at `at`.
    pub fn of(topology: &Topology, at: u64) -> Places
        requires { at + 2 ^ 33 < 2 ^ 64 }
        ensures nodes { result.nodes ≡ at + nodes_place }
        ensures lines { result.lines ≡ at + lines_place topology.now }
        ensures ports { result.ports ≡ at + ports_place topology.now }
        ensures groups { result.groups ≡ at + groups_place topology.now }
        ensures rules { is_topology topology.now ≡ true }
        ensures bound { result.ports < at + 2 ^ 32 }
        ensures end { result.groups < at + 2 ^ 33 }
    {
        let nodes = at + FIELDS_BYTES as u64;
        let lines = nodes + images_length(topology);
        let ports = lines + LINE_BYTES as u64 * topology.line_count() as u64;
        let groups = at + (AREA_HEAD_BYTES - 1) as u64 + cut_length(topology);
        Places {
            nodes,
            lines,
            ports,
            groups,
        }
    }
}
