//! The device of seventeen nodes, which has a wide head: all its bytes, what changes of them say, and a turn in its journal.

use crate::apart::{Content, NO, is_said, play, with_pieces};
use crate::devices::{formatted, leads_from};
use crate::opened_books::{Filling, fills, has_room};
use std::alloc::Global;
use std::thread::Threads;
use tp_model::OpenFault;
use tp_model::OpenFault::{BadVersion, Damaged, NoOpenArea, NotFormatted};
use tp_model::limits::WIDE_HEAD_BYTES;
use tp_tests_fixtures::{letter, place};

/// Seventeen nodes. The last is wired to the port and to the first.
pub(crate) const SEVENTEEN: &[u8] =
    b"node n0 4\nnode n1 4\nnode n2 4\nnode n3 4\nnode n4 4\nnode n5 4\nnode n6 4\nnode n7 4\nnode n8 4\nnode n9 4\nnode n10 4\nnode n11 4\nnode n12 4\nnode n13 4\nnode n14 4\nnode n15 4\nnode n16 4\nport h\nwire n16.0 h\nwire n16.3 n0.0\n";

/// Their least area: 81,052 bytes of the cut image, 14 beside it, and 6,656 for groups.
pub(crate) const LEAST: u64 = 87_722;

/// Bytes of their device, beside its images: the head; and the first area's gate, generation, length, base and form. All others are 00.
const BYTES: &[(usize, &[u8])] = &[
    (0, &[0x54, 0x50, 0x4E, 0x45, 0x54, 0, 0, 2, 17, 1]),
    (16, &[0xAA, 0x56, 1]),
    (
        24,
        &[
            4, 0, 4, 0, 4, 0, 4, 0, 4, 0, 4, 0, 4, 0, 4, 0, 4, 0, 4, 0, 4, 0, 4, 0, 4, 0, 4, 0, 4,
            0, 4, 0, 4,
        ],
    ),
    (152, &[0x44]),
    (281, &[0x80]),
    (286, &[1]),
    (1_024, &[0xA5, 1]),
    (1_033, &[0x9C, 0x3C, 1]),
    (1_043, &[2]),
];

/// How long their device is, and where the images are on it.
const SIZE: usize = 176_468;

const IMAGES: [usize; 17] = [
    1_045, 5_313, 9_581, 13_849, 18_117, 22_385, 26_653, 30_921, 35_189, 39_457, 43_725, 47_993,
    52_261, 56_529, 60_797, 65_065, 69_333,
];

/// Changes of that device.
const WIDE: &[Content] = &[
    ([NO, NO, NO, NO, NO, NO], [0, 0, 0, 0, 0, 0], Ok(0)),
    ([7, NO, NO, NO, NO, NO], [1, 0, 0, 0, 0, 0], Err(Damaged(0))),
    ([7, NO, NO, NO, NO, NO], [3, 0, 0, 0, 0, 0], Err(BadVersion)),
    (
        [8, NO, NO, NO, NO, NO],
        [16, 0, 0, 0, 0, 0],
        Err(Damaged(0)),
    ),
    (
        [8, NO, NO, NO, NO, NO],
        [65, 0, 0, 0, 0, 0],
        Err(Damaged(0)),
    ),
    (
        [24, 25, NO, NO, NO, NO],
        [1, 4, 0, 0, 0, 0],
        Err(Damaged(0)),
    ),
    // Where links lead: one way only; nowhere; to a link of no node; to a second port; to no port at all.
    (
        [152, NO, NO, NO, NO, NO],
        [0, 0, 0, 0, 0, 0],
        Err(Damaged(0)),
    ),
    (
        [286, NO, NO, NO, NO, NO],
        [0, 0, 0, 0, 0, 0],
        Err(Damaged(0)),
    ),
    ([152, 286, NO, NO, NO, NO], [0, 0, 0, 0, 0, 0], Ok(0)),
    (
        [153, NO, NO, NO, NO, NO],
        [1, 0, 0, 0, 0, 0],
        Err(Damaged(0)),
    ),
    (
        [280, NO, NO, NO, NO, NO],
        [1, 0, 0, 0, 0, 0],
        Err(Damaged(0)),
    ),
    (
        [281, NO, NO, NO, NO, NO],
        [0x81, 0, 0, 0, 0, 0],
        Err(Damaged(0)),
    ),
    // The first link is wired to itself.
    ([152, 286, NO, NO, NO, NO], [1, 0, 0, 0, 0, 0], Ok(0)),
    // Bytes that are 00: after the last node's pages, its ends, and the ends of all.
    (
        [58, NO, NO, NO, NO, NO],
        [4, 0, 0, 0, 0, 0],
        Err(Damaged(0)),
    ),
    (
        [288, NO, NO, NO, NO, NO],
        [1, 0, 0, 0, 0, 0],
        Err(Damaged(0)),
    ),
    (
        [664, NO, NO, NO, NO, NO],
        [1, 0, 0, 0, 0, 0],
        Err(Damaged(0)),
    ),
    (
        [1_023, NO, NO, NO, NO, NO],
        [1, 0, 0, 0, 0, 0],
        Err(Damaged(0)),
    ),
    // The area.
    (
        [1_024, NO, NO, NO, NO, NO],
        [0, 0, 0, 0, 0, 0],
        Err(NoOpenArea),
    ),
    (
        [1_043, NO, NO, NO, NO, NO],
        [1, 0, 0, 0, 0, 0],
        Err(Damaged(1_024)),
    ),
    (
        [1_043, NO, NO, NO, NO, NO],
        [3, 0, 0, 0, 0, 0],
        Err(Damaged(1_024)),
    ),
    (
        [1_043, 1_044, NO, NO, NO, NO],
        [0, 2, 0, 0, 0, 0],
        Err(Damaged(1_024)),
    ),
    ([1_043, NO, NO, NO, NO, NO], [0, 0, 0, 0, 0, 0], Ok(0)),
    (
        [88_746, 88_747, NO, NO, NO, NO],
        [0xA5, 1, 0, 0, 0, 0],
        Err(Damaged(88_746)),
    ),
    // A group of one entry: the first node runs for 3 steps.
    (
        [82_089, 82_091, 82_105, 82_107, NO, NO],
        [0xA5, 1, 1, 3, 0, 0],
        Ok(1),
    ),
    (
        [82_089, 82_091, 82_105, 82_107, NO, NO],
        [0xA5, 1, 1, 4, 0, 0],
        Err(Damaged(82_105)),
    ),
    (
        [82_089, 82_091, 82_105, 82_106, 82_107, NO],
        [0xA5, 1, 1, 17, 3, 0],
        Err(Damaged(82_105)),
    ),
    (
        [82_089, 82_091, 82_105, 82_106, 82_107, NO],
        [0xA5, 1, 1, 16, 3, 0],
        Ok(1),
    ),
];

/// A group of three entries: the last node runs for 3 steps, the host takes the letter, and in a turn the node takes the
/// acknowledge and makes 16 steps.
const A_TURN: &[(usize, &[u8])] = &[
    (82_089, &[0xA5, 0, 3]),
    (82_105, &[1, 16, 3]),
    (82_121, &[2, 1, 64, 0, 0x41, 0, 0, 0, 1]),
    (82_137, &[5, 16, 16, 0, 0, 0, 0, 0, 2, 0, 0, 0, 0, 0, 2]),
];

/// The last node's turn, as another node's.
const ANOTHER_NODE: &[(usize, &[u8])] = &[(82_138, &[15])];

/// That group's entries, if the turn is said as a take and a run.
const APART: &[u8] = b"RAKO";

/// For a length to which the device is cut: what opening it then says.
const LENGTHS: &[(usize, Result<u64, OpenFault>)] = &[
    (511, Err(NotFormatted)),
    (512, Err(Damaged(0))),
    (600, Err(Damaged(0))),
    (1_023, Err(Damaged(0))),
    (1_024, Err(Damaged(0))),
    (SIZE - 1, Err(Damaged(0))),
    (SIZE, Ok(0)),
];

/// The device of seventeen nodes.
fn seventeen(alloc: Global) -> Option<Vec<u8>> {
    formatted(alloc, SEVENTEEN, 17, WIDE_HEAD_BYTES, LEAST)
}

#[test]
fn a_wide_device_is_changed(rt: HostRuntime) {
    play(&rt, rt.alloc(), seventeen(rt.alloc()), WIDE);
}

/// Puts images at their places.
fn place_images(bytes: &mut [u8], image: &[u8]) {
    for at in IMAGES {
        place(bytes, at, image);
    }
}

/// The device of seventeen nodes, made by hand.
fn by_hand(alloc: Global) -> Option<Vec<u8>> {
    let Ok(mut bytes) = Vec::from_elem(alloc, 0u8, SIZE) else {
        return None;
    };
    let Ok(image) = letter(alloc) else {
        return None;
    };
    place_images(&mut bytes, &image);
    with_pieces(alloc, &bytes, BYTES)
}

/// Whether a device has these bytes, and each of its fronts says what it ought to.
fn are_fronts<R: Threads + Sync>(rt: &R, alloc: Global, device: &[u8], bytes: &[u8]) -> bool {
    for (len, says) in LENGTHS {
        if !is_said(rt, alloc, device.get(..*len).unwrap_or(&[]), *says) {
            return false;
        }
    }
    device == bytes
}

#[test]
fn wide_heads_have_their_bytes(rt: HostRuntime) {
    let device = seventeen(rt.alloc());
    let bytes = by_hand(rt.alloc());
    let told = match (&device, &bytes) {
        (Some(device), Some(bytes)) => are_fronts(&rt, rt.alloc(), device, bytes),
        _ => false,
    };
    assert!(rt; told);
}

/// Whether a turn of the last node leads where its take and its run lead, and another node's isn't possible.
fn turns<R: Threads + Sync>(rt: &R, alloc: Global, device: &[u8]) -> bool {
    let Some(turned) = with_pieces(alloc, device, A_TURN) else {
        return false;
    };
    match with_pieces(alloc, &turned, ANOTHER_NODE) {
        Some(other) => {
            leads_from(alloc, &turned, 3, device, APART)
                && is_said(rt, alloc, &other, Err(Damaged(82_137)))
        }
        None => false,
    }
}

/// A turn of a node above 15.
#[test]
fn the_last_node_turns(rt: HostRuntime) {
    let told = match seventeen(rt.alloc()) {
        Some(device) => turns(&rt, rt.alloc(), &device),
        None => false,
    };
    assert!(rt; told);
}

/// One entry that anyone may make has room in the least area, and no second one.
const FILLING: Filling = Filling {
    nodes: 17,
    room: 6_656,
    most: 1,
};

#[test]
fn the_least_area_has_room_for_one_entry(rt: HostRuntime) {
    let device = seventeen(rt.alloc());
    let is_room = match &device {
        Some(bytes) => has_room(rt.alloc(), bytes, 6_656),
        None => false,
    };
    let is_filled = fills(rt.alloc(), device, &FILLING);
    assert!(rt; is_room && is_filled);
}
