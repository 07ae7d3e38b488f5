//! A network that is split into parts.

ghost use Rattle.std.specs.Prelude.{◌≡◌, ◌<◌, ◌≤◌, ◌+◌, ◌++◌, All, IfOk, OnOk, drop, length, map, vec_len};
ghost use Rattle.tp_replay.specs.Whole.{AreWhole};
ghost use Rattle.tp_replay.specs.Apart.{CanSplit, network_apart};
ghost use Rattle.tp_replay.specs.Counts.{room_of};
ghost use Rattle.tp_replay.specs.Dealing.{networks_of, new_part, pieces_of, run_held, run_part};
ghost use Rattle.tp_replay.specs.NodesInside.{AreLive};
ghost use Rattle.tp_replay.specs.Parts.{net_room};
ghost use Rattle.tp_replay.specs.Runs.{AreDealt, runs};

use crate::pieces::apart::Apart;
use crate::pieces::host_part::HostPart;
use crate::pieces::lanes::Lanes;
use crate::pieces::net_part::NetPart;
use crate::pieces::nodes_part::NodesPart;
use crate::{Neighbours, neighbours_of};
use std::alloc::{AllocError, Global};
use std::mem;
use tp_node::{Node, Runs};

/// Makes the part of nodes from `first` on. Its wires and lines are copies of the host's.
fn part_beside(
    alloc: Global,
    host: &HostPart,
    first: usize,
    nodes: Vec<Node>,
) -> Result<NodesPart, AllocError>
    requires few { first + vec_len nodes ≤ length host.now.network.nodes }
    requires live { AreLive nodes.items }
    ensures { IfOk result (λ part. part ≡ run_held host.now.network first nodes.items) }
{
    Ok(NodesPart {
        before: first,
        behind: host.nodes - (first + nodes.len()),
        nodes,
        ports: host.ports.len(),
        lanes: host.lanes.copy(alloc)?,
        runs: Runs::new(alloc)?,
    })
}

/// Makes a part of a run, whose nodes are the first ones of the rest, and puts it after the other parts. A run without nodes makes none.
fn deal(
    alloc: Global,
    host: &HostPart,
    run: Neighbours,
    rest: &mut Vec<Node>,
    parts: &mut Vec<NetPart>,
) -> Result<(), AllocError>
    requires few { run.first + vec_len rest.old ≤ length host.now.network.nodes }
    requires there { run.count ≤ vec_len rest.old }
    requires live { AreLive rest.old.items }
    ensures rest { OnOk result (rest.new.items ≡ drop run.count rest.old.items) }
    ensures parts { OnOk result (parts.new.items ≡ parts.old.items ++ new_part host.now.network run.first run.count rest.old.items) }
{
    if run.count == 0 {
        return Ok(());
    }
    let behind = rest.split_off(usize::from(run.count))?;
    let nodes = mem::replace(rest, behind);
    let part = part_beside(alloc, host, usize::from(run.first), nodes)?;
    parts.push(NetPart::Nodes(part))?;
    Ok(())
}

/// Deals all nodes to workers.
fn deal_all(
    alloc: Global,
    host: &HostPart,
    nodes: Vec<Node>,
    workers: u8,
) -> Result<Vec<NetPart>, AllocError>
    requires some { 0 < workers }
    requires all { vec_len nodes ≡ length host.now.network.nodes }
    requires live { AreLive nodes.items }
    ensures { IfOk result (λ parts. parts.items ≡ map (run_part host.now.network nodes.items) (runs (vec_len nodes) workers workers)) }
{
    let count = host.nodes as u8;
    let mut rest = nodes;
    let mut parts = Vec::new(alloc);
    for worker in 0..workers {
        let run = neighbours_of(count, workers, worker);
        deal(alloc, host, run, &mut rest, &mut parts)?;
    }
    Ok(parts)
}

/// Splits a network into parts: one for each worker that gets a node, in the order of their nodes, and last the host with its ports.
/// `AllocError` if memory is out.
pub fn split(alloc: Global, network: Apart, workers: u8) -> Result<Vec<NetPart>, AllocError>
    requires some { 0 < workers }
    requires can { CanSplit network }
    ensures whole { IfOk result (λ parts. AreWhole (network_apart network) (vec_len parts) (pieces_of parts.items) (networks_of parts.items)) }
    ensures dealt { IfOk result (λ parts. AreDealt (vec_len network.nodes) (runs (vec_len network.nodes) workers workers) (vec_len parts) (pieces_of parts.items)) }
    ensures room { IfOk result (λ parts. All (λ part. room_of (network_apart network).ports ≤ net_room part) parts.items) }
{
    let Apart {
        wires,
        nodes,
        lines,
        ports,
    } = network;
    let host = HostPart {
        nodes: nodes.len(),
        ports,
        lanes: Lanes { wires, lines },
    };
    let mut parts = deal_all(alloc, &host, nodes, workers)?;
    parts.push(NetPart::Host(host))?;
    Ok(parts)
}
