//! What a checkpoint puts into the other area, and the calls that put it there and switch to it; and steps on a device.

ghost use Rattle.std.specs.Prelude.{◌≡◌, ◌<◌, ◌&&◌, true, length, OnOk};
ghost use Rattle.tp_tests_opening.specs.Lower.{AreTrue, is_some, is_line_of, is_port_of, on_line, are_lines, has_record, port_made, OtherIsClosed};
ghost use Rattle.tp_tests_opening.specs.TailOf.{AreTailOf};

use crate::checkpoints::{Cut, Step};
use crate::devices::{Held, append, append_each, replayed};
use crate::letters::entry_of;
use std::alloc::{AllocError, Global};
use tp_area::{Store, StoreFault};
use tp_book::{Numbered, PortParts};
use tp_disk::{Disk, MemDisk};
use tp_model::limits::{IMAGE_HEAD_BYTES, MAX_HELD, PAGE_BYTES};
use tp_model::{NetFault, Token, WireEnd};
use tp_net::{Lines, Topology, is_in_range};
use tp_tests_fixtures::ONE_NODE;

/// The pages of the node.
const PAGES: usize = 4;

/// What is put for a cut: the network's topology, what a plain replay gives of the entries in it, its lines, and the entries outside it; each as it
/// was made, or why it wasn't.
#[derive(Drop)]
struct Made {
    topology: Result<Topology, NetFault>,
    held: Option<Held>,
    lines: Result<Lines, AllocError>,
    tail: Result<Vec<Numbered>, AllocError>,
}

/// Entries with the numbers beside them.
fn numbered_of(alloc: Global, tail: &[(u8, u64)]) -> Result<Vec<Numbered>, AllocError> {
    let mut all = Vec::with_capacity(alloc, tail.len())?;
    for (letter, number) in tail {
        let (entry, number) = (entry_of(*letter), *number);
        all.push(Numbered { entry, number })?;
    }
    Ok(all)
}

/// The lines of a cut.
fn lines_of(alloc: Global, cut: &Cut) -> Result<Lines, AllocError> {
    let mut lines = Lines::new(alloc, 5)?;
    if let Some((line, token)) = cut.token {
        if line < 5 {
            lines.push(line, token);
        }
    }
    Ok(lines)
}

/// What is made for a cut over the device with `first`, with which all began.
fn made_for(alloc: Global, first: &[u8], cut: &Cut) -> Made {
    Made {
        topology: Topology::read(alloc, ONE_NODE),
        held: replayed(alloc, first, cut.entries),
        lines: lines_of(alloc, cut),
        tail: numbered_of(alloc, cut.tail),
    }
}

/// Whether the record of a line can hold what is on it, here one token at most.
fn is_line(wire: Option<WireEnd>, lines: &Lines, line: usize) -> bool
    requires { line < length lines.now }
    ensures { result ≡ true → (has_record (on_line lines.now line) && is_line_of wire (on_line lines.now line)) ≡ true }
{
    match lines.front(line) {
        None => true,
        Some(Token::Marker) => false,
        Some(_) => wire.is_some() && lines.len(line) == 1,
    }
}

/// Whether the records of all lines can hold what is on them.
fn are_lines(wires: &[Option<WireEnd>], lines: &Lines) -> bool
    ensures { result ≡ true → are_lines wires.now lines.now ≡ true }
{
    for (line, wire) in wires.iter().enumerate() {
        if line >= lines.count() || !is_line(*wire, lines, line) {
            return false;
        }
    }
    lines.count() == wires.len()
}

/// Whether the record of a port can hold it in a cut of `base` entries.
fn is_port(base: u64, port: &PortParts) -> bool
    ensures { result ≡ true → is_port_of base (port_made port.now) ≡ true }
{
    port.pending.len() <= MAX_HELD
        && port.outputs.len() <= MAX_HELD
        && port.in_base <= base
        && port.out_base <= base
        && port.outputs.len() as u64 <= base - port.out_base
}

/// Whether entries may be after a cut of `base` entries, in groups.
fn are_behind(base: u64, tail: &[Numbered]) -> bool
    ensures { result ≡ true → AreTailOf base tail.now }
{
    if base > 1_000 || tail.len() > 1_000 {
        return false;
    }
    let mut least = 0;
    for i in 0..tail.len() {
        let one = tail[i];
        if one.number < least || one.number > base + i as u64 || !is_in_range(one.entry) {
            return false;
        }
        least = one.number + 1;
    }
    true
}

/// Puts the image of the only node into the other area, piece by piece.
fn put_image<D: Disk>(
    store: &mut Store<D>,
    topology: &Topology,
    image: &[u8],
) -> Result<(), StoreFault>
    requires closed { AreTrue (D.reads store.old.disk) → OtherIsClosed store.old.place (D.state store.old.disk) }
    requires allowed { D.writable ≡ true }
    ensures closed { AreTrue (D.reads store.new.disk) → OnOk result (OtherIsClosed store.new.place (D.state store.new.disk)) }
{
    if topology.pages().is_empty() || image.len() != IMAGE_HEAD_BYTES + PAGES * PAGE_BYTES {
        return Err(StoreFault::AreaFull);
    }
    let (head, mut pages) = image.split_at(IMAGE_HEAD_BYTES);
    store.put_piece(topology, 0, 0, head)?;
    for page in 0..PAGES {
        let (first, rest) = pages.split_at(PAGE_BYTES);
        store.put_piece(topology, 0, page + 1, first)?;
        pages = rest;
    }
    Ok(())
}

/// Puts all the rest there.
fn put_rest<D: Disk>(
    store: &mut Store<D>,
    topology: &Topology,
    held: &Held,
    lines: &Lines,
    tail: &[Numbered],
) -> Result<(), StoreFault>
    requires closed { AreTrue (D.reads store.old.disk) → OtherIsClosed store.old.place (D.state store.old.disk) }
    requires allowed { D.writable ≡ true }
    ensures filled { OnOk result (is_some store.new.filled ≡ true) }
{
    let ports = held.net.ports.as_slice();
    let base = held.next;
    let may_be_put = store.place.generation < 1_000
        && topology.port_count() == 1
        && ports.len() == 1
        && is_port(base, &ports[0])
        && are_lines(topology.wires(), lines)
        && are_behind(base, tail);
    if !may_be_put {
        return Err(StoreFault::AreaFull);
    }
    store.put_tail(topology, base, lines, ports, tail)
}

/// Makes a checkpoint: the other area is closed, all is put there, and its gate is opened.
fn switch<D: Disk>(
    store: &mut Store<D>,
    topology: &Topology,
    held: &Held,
    lines: &Lines,
    tail: &[Numbered],
) -> Result<(), StoreFault>
    requires { D.writable ≡ true }
{
    store.clear_other()?;
    let Some(image) = held.net.images.first() else {
        return Err(StoreFault::AreaFull);
    };
    put_image(store, topology, image)?;
    put_rest(store, topology, held, lines, tail)?;
    store.open_other()
}

/// Makes a checkpoint of what was made for it. If that wasn't made, it refuses as for a full area, which no test wants.
fn switch_to(store: &mut Store<MemDisk>, made: &Made) -> Result<(), StoreFault> {
    match (&made.topology, &made.held, &made.lines, &made.tail) {
        (Ok(topology), Some(held), Ok(lines), Ok(tail)) => {
            switch(store, topology, held, lines, tail)
        }
        _ => Err(StoreFault::AreaFull),
    }
}

/// Takes a step on a device, with whose bytes `first` all began.
pub(crate) fn take_step(
    alloc: Global,
    store: &mut Store<MemDisk>,
    first: &[u8],
    step: &Step,
) -> Result<(), StoreFault> {
    match step {
        Step::Group(letters) => append(store, letters),
        Step::Each(letters) => append_each(store, letters),
        Step::Switch(cut) => {
            let made = made_for(alloc, first, cut);
            switch_to(store, &made)
        }
    }
}
