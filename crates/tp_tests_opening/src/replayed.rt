//! Plain replays of the entries in a cut, and whether the cut is what they lead to.

use crate::network::Net;
use crate::possible::can_count;
use std::alloc::{AllocError, Global};
use std::test::Fail;
use tp_book::{Book, Cut, NetParts, Numbered, PortParts};
use tp_disk::MemDisk;
use tp_model::{Entry, Token};
use tp_net::Lines;
use tp_node::Runs;
use tp_recover::open;
use tp_replay::FlatNetwork;

/// A network in one thread, and what that keeps of instructions.
#[derive(Drop)]
pub(crate) struct Flat {
    pub(crate) network: FlatNetwork,
    runs: Runs,
}

impl Flat {
    /// A network whose thread has read no instruction yet.
    pub(crate) fn of(alloc: Global, network: FlatNetwork) -> Result<Flat, Fail> {
        let runs = Runs::new(alloc)?;
        Ok(Flat { network, runs })
    }
}

/// The network of a device, before its first entry.
pub(crate) fn flat_on(alloc: Global, disk: &mut MemDisk) -> Result<Flat, Fail> {
    let opened = open(alloc, disk)?;
    let (_head, network, _kept) = opened.into_parts();
    Flat::of(alloc, network)
}

/// The network of a device whose nodes have `spare` spare frames, and the plain one before its first entry.
fn both_on(alloc: Global, disk: &mut MemDisk, spare: usize) -> Result<(Net, Flat), Fail> {
    let flat = flat_on(alloc, disk)?;
    let net = Net::of_device(alloc, disk, spare)?;
    Ok((net, flat))
}

/// These of a device that was just made.
pub(crate) fn both_of(
    alloc: Global,
    made: Result<MemDisk, Fail>,
    spare: usize,
) -> Result<(Net, Flat), Fail> {
    let mut disk = made?;
    let both = both_on(alloc, &mut disk, spare);
    both
}

/// Whether an entry is possible. It is then applied.
pub(crate) fn goes(flat: &mut Flat, entry: &Entry) -> bool {
    let Flat { network, runs } = flat;
    can_count(network) && network.apply(runs, entry).is_ok()
}

/// Whether `tokens` are on a line, and no other.
fn is_line(lines: &Lines, line: usize, tokens: &[Token]) -> bool {
    if line >= lines.count() || lines.len(line) != tokens.len() {
        return false;
    }
    for (at, token) in tokens.iter().enumerate() {
        if lines.get(line, at) != Some(*token) {
            return false;
        }
    }
    true
}

/// Whether ports have the states of `others`.
pub(crate) fn are_ports(ports: &[PortParts], others: &[PortParts]) -> bool {
    for (port, other) in ports.iter().zip(others) {
        let is_input = port.pending == other.pending && port.in_base == other.in_base;
        if !is_input || port.outputs != other.outputs || port.out_base != other.out_base {
            return false;
        }
    }
    ports.len() == others.len()
}

/// Whether a cut with the nodes' images as they recorded is a network.
pub(crate) fn is_network(cut: &Cut, images: &[Vec<u8>], parts: &NetParts) -> bool {
    for (line, tokens) in parts.lines.iter().enumerate() {
        if !is_line(cut.lines(), line, tokens) {
            return false;
        }
    }
    parts.lines.len() == cut.lines().count()
        && are_ports(cut.ports(), &parts.ports)
        && images == parts.images.as_slice()
}

/// The images of a network's nodes, as they recorded. They are empty if a node isn't frozen. Afterwards none is frozen.
fn images_in(alloc: Global, net: &mut Net) -> Result<Vec<Vec<u8>>, AllocError> {
    let mut images = Vec::new(alloc);
    for number in 0..net.nodes().len() {
        images.push(net.image(alloc, number)?)?;
    }
    Ok(images)
}

/// Whether one of `entries` has that number.
fn has_number(entries: &[Numbered], number: u64) -> bool {
    for numbered in entries {
        if numbered.number == number {
            return true;
        }
    }
    false
}

/// Replays the entries that aren't `outside` a cut. Answers how many there are, and `None` if one isn't possible.
fn replay_inside(entries: &[Numbered], outside: &[Numbered], flat: &mut Flat) -> Option<u64> {
    let mut replayed = 0u64;
    for numbered in entries {
        if !has_number(outside, numbered.number) {
            if !goes(flat, &numbered.entry) {
                return None;
            }
            replayed = replayed.saturating_add(1);
        }
    }
    Some(replayed)
}

/// How many tokens are on lines.
fn on_lines(lines: &Lines) -> usize {
    let mut tokens = 0usize;
    for line in 0..lines.count() {
        tokens = tokens.saturating_add(lines.len(line));
    }
    tokens
}

/// Counts the tokens on the lines of the book's whole cut; `None` if no cut is whole, if it isn't the network with `images` that a plain replay of
/// its entries leads to, or without memory. `flat` is the kept cut's network before, and this one after.
fn under_way(alloc: Global, book: &Book, images: &[Vec<u8>], flat: &mut Flat) -> Option<usize> {
    let Some(cut) = book.whole() else {
        return None;
    };
    let Ok(outside) = book.tail(alloc) else {
        return None;
    };
    if replay_inside(book.entries(), outside.entries(), flat) != Some(cut.size()) {
        return None;
    }
    let Ok(parts) = flat.network.parts(alloc) else {
        return None;
    };
    if is_network(cut, images, &parts) {
        Some(on_lines(cut.lines()))
    } else {
        None
    }
}

/// Counts the tokens on the lines of the whole cut, to which the network then is trimmed; `None` if the cut isn't right, or without memory.
pub(crate) fn take_in(alloc: Global, net: &mut Net, flat: &mut Flat) -> Option<usize> {
    let Ok(images) = images_in(alloc, net) else {
        return None;
    };
    let tokens = under_way(alloc, net.book(), &images, flat);
    if net.take_in() { tokens } else { None }
}
