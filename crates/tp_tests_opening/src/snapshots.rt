//! Snapshots of networks that are drawn: turns bring them to their end.

use crate::deeds::Deed;
use crate::drawn::{drawn_topology, formatted};
use crate::machines::{Chance, drawn_image};
use crate::network::Net;
use crate::replayed::{Flat, both_of, take_in};
use std::alloc::{AllocError, Global};
use std::test::Fail;
use tp_book::Refusal;
use tp_disk::MemDisk;

/// Draws the images of a network's nodes.
fn drawn_images(
    alloc: Global,
    chance: &mut Chance,
    count: usize,
) -> Result<Vec<Vec<u8>>, AllocError> {
    let mut images = Vec::new(alloc);
    for _node in 0..count {
        images.push(drawn_image(alloc, chance)?)?;
    }
    Ok(images)
}

/// A device with a network that is drawn.
fn drawn(alloc: Global, chance: &mut Chance, nodes: u8, ports: u8) -> Result<MemDisk, Fail> {
    let Some(topology) = drawn_topology(chance, nodes, ports) else {
        return Err(Fail::from("no network"));
    };
    let images = drawn_images(alloc, chance, topology.pages().len())?;
    let disk = formatted(alloc, &topology, &images);
    disk
}

/// Whether a turn may answer so if memory isn't wanting.
fn is_answer(answer: Option<Result<u64, Refusal>>) -> bool {
    !matches!(
        answer,
        Some(Err(Refusal::Memory | Refusal::StoreBroken | Refusal::NothingToTake))
    )
}

/// Turns of the nodes in order, and then the host's. Whether each was one that may be.
fn round(net: &mut Net, quantum: u8) -> bool {
    for number in 0..net.nodes().len().min(8) {
        if !is_answer(net.does(number as u8, Deed::Turn(quantum))) {
            return false;
        }
    }
    is_answer(Some(net.host_turn()))
}

/// A snapshot, begun after a round and whole after two more. Answers how many tokens were on the lines of its cut; none if it isn't
/// whole or isn't right.
fn snapshot(alloc: Global, net: &mut Net, flat: &mut Flat) -> Option<usize> {
    let begun = round(net, 20) && net.begin(alloc).is_ok();
    if !begun || !round(net, 20) || !round(net, 20) {
        return None;
    }
    take_in(alloc, net, flat)
}

/// Snapshots one after another. Answers how many tokens were on the lines of their cuts; none if one isn't right.
fn snapshots_on(alloc: Global, net: &mut Net, flat: &mut Flat, count: u8) -> Option<usize> {
    let mut tokens = 0usize;
    for _snapshot in 0..count {
        let Some(more) = snapshot(alloc, net, flat) else {
            return None;
        };
        tokens = tokens.saturating_add(more);
    }
    Some(tokens)
}

/// Snapshots of a network that is drawn.
fn snapshots(alloc: Global, nodes: u8, count: u8) -> Result<Option<usize>, Fail> {
    let mut chance = Chance { state: 2 };
    let (mut net, mut flat) = both_of(alloc, drawn(alloc, &mut chance, nodes, 2), 4)?;
    let tokens = snapshots_on(alloc, &mut net, &mut flat, count);
    Ok(tokens)
}

#[test]
fn snapshots_of_some_nodes_come_to_their_end(rt: HostRuntime) -> Result<(), Fail> {
    for nodes in [3, 8] {
        let tokens = snapshots(rt.alloc(), nodes, 20)?;
        assert!(rt; tokens.unwrap_or(0) > 0);
    }
    Ok(())
}
