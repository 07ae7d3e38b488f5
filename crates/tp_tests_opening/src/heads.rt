//! Heads of both versions: which networks have which, and what is no narrow head.

use crate::apart::{Content, NO, is_said, play, with_pieces};
use crate::devices::Letter;
use crate::opened_books::grown;
use crate::topology_faults::text_of;
use std::alloc::Global;
use std::thread::Threads;
use tp_area::FormatFault;
use tp_disk::MemDisk;
use tp_model::OpenFault;
use tp_model::OpenFault::{BadVersion, Damaged};
use tp_model::limits::{IMAGE_HEAD_BYTES, NARROW_HEAD_BYTES, PAGE_BYTES, WIDE_HEAD_BYTES};
use tp_net::Topology;
use tp_tests_fixtures::{idle, place};

/// How many nodes a network has, each of four pages except the last; the pages of that; its least area; and whether its head is a wide one, since a
/// narrow one can't say it. It has one port, and no wire.
type Row = (u16, u16, u64, bool);

/// A node of four pages has 4,268 bytes, each line 4, a port 8,212. Beside them are 22, and there is room for 96 a line and 32 more.
const ROWS: &[Row] = &[
    (1, 4, 13_034, false),
    (1, 256, 271_082, false),
    (1, 257, 272_106, true),
    (1, 1_023, 1_056_490, true),
    (1, 1_024, 1_057_514, true),
    (15, 4, 78_386, false),
    (16, 4, 83_054, false),
    (16, 256, 341_102, false),
    (17, 4, 87_722, true),
    (17, 257, 346_794, true),
    (63, 4, 302_450, true),
    (64, 4, 307_118, true),
];

/// The image of a node of `pages` pages in which no process runs.
fn image(alloc: Global, pages: u16) -> Option<Vec<u8>> {
    let Ok(mut image) = idle(alloc) else {
        return None;
    };
    let len = IMAGE_HEAD_BYTES + PAGE_BYTES * pages as usize;
    if image.resize(len, 0).is_err() {
        return None;
    }
    place(&mut image, 2, &pages.to_le_bytes());
    Some(image)
}

/// The images of nodes, each of four pages but the last.
fn images(alloc: Global, nodes: u16, last: u16) -> Option<Vec<Vec<u8>>> {
    let mut images = Vec::new(alloc);
    for node in 1..=nodes {
        let Some(image) = image(alloc, if node < nodes { 4 } else { last }) else {
            return None;
        };
        if images.push(image).is_err() {
            return None;
        }
    }
    Some(images)
}

/// The topology of such nodes, with one port.
fn topology(alloc: Global, nodes: u16, last: u16) -> Option<Topology> {
    let Ok(text) = text_of(alloc, nodes, last, 1) else {
        return None;
    };
    match Topology::read(alloc, text.as_bytes()) {
        Ok(topology) => Some(topology),
        Err(_) => None,
    }
}

/// The network of a row.
fn network(alloc: Global, row: &Row) -> Option<Letter> {
    let (nodes, last, _, _) = *row;
    let Some(images) = images(alloc, nodes, last) else {
        return None;
    };
    match topology(alloc, nodes, last) {
        Some(topology) => Some(Letter { topology, images }),
        None => None,
    }
}

/// Whether a device of that size is too small for its areas.
fn is_full(alloc: Global, letter: &Letter, size: usize, area: u64) -> bool {
    match MemDisk::zeroed(alloc, size) {
        Ok(mut disk) => letter.format(alloc, &mut disk, area) == Err(FormatFault::AreaFull),
        Err(_) => false,
    }
}

/// Whether two devices are refused: one whose areas are smaller than the least by a byte, and one that is too small by a byte.
fn are_full(alloc: Global, letter: &Letter, head: usize, least: u64) -> bool {
    let size = head.saturating_add(2 * least.min(2_000_000) as usize);
    is_full(alloc, letter, size, least.saturating_sub(1))
        && is_full(alloc, letter, size.saturating_sub(1), least)
}

/// The device of a row; none if smaller ones aren't refused.
fn device_of(alloc: Global, row: &Row, head: usize) -> Option<Vec<u8>> {
    let Some(letter) = network(alloc, row) else {
        return None;
    };
    if are_full(alloc, &letter, head, row.2) {
        letter.device(alloc, head, row.2)
    } else {
        None
    }
}

/// Whether a device has a head of this version, and after it an open area with turns.
fn is_of_version(device: &[u8], head: usize, version: u8) -> bool {
    let area = device.get(head..).unwrap_or(&[]);
    device.get(7) == Some(&version)
        && area.starts_with(&[0xA5, 1, 0])
        && area.get(19..21) == Some([2, 0].as_slice())
}

/// The device with a head of the other version. No link has a wire, so none says where one leads.
fn other_head(alloc: Global, device: &[u8], is_wide: bool) -> Option<Vec<u8>> {
    let (head, other, version) = if is_wide {
        (WIDE_HEAD_BYTES, NARROW_HEAD_BYTES, 1)
    } else {
        (NARROW_HEAD_BYTES, WIDE_HEAD_BYTES, 2)
    };
    let front = device.get(..NARROW_HEAD_BYTES).unwrap_or(&[]);
    let Ok(mut bytes) = Vec::from_slice(alloc, front) else {
        return None;
    };
    let areas = device.get(head..).unwrap_or(&[]);
    if bytes.resize(other, 0).is_err() || bytes.extend_from_slice(areas).is_err() {
        return None;
    }
    place(&mut bytes, 7, &[version]);
    Some(bytes)
}

/// What a device says with a head of the other version: a wide one says each network.
const fn says_with_other(is_wide: bool) -> Result<u64, OpenFault> {
    if is_wide { Err(Damaged(0)) } else { Ok(0) }
}

/// Whether a device opens, and with a head of the other version, if that can say it.
fn opens_with<R: Threads + Sync>(rt: &R, alloc: Global, device: &[u8], is_wide: bool) -> bool {
    let Some(other) = other_head(alloc, device, is_wide) else {
        return false;
    };
    is_said(rt, alloc, device, Ok(0)) && is_said(rt, alloc, &other, says_with_other(is_wide))
}

/// Whether a network is formatted with its head, and opens with it; and with one of the other version, if that can say it.
fn has_its_head<R: Threads + Sync>(rt: &R, alloc: Global, row: &Row) -> bool {
    let is_wide = row.3;
    let (head, version) = if is_wide {
        (WIDE_HEAD_BYTES, 2)
    } else {
        (NARROW_HEAD_BYTES, 1)
    };
    match device_of(alloc, row, head) {
        Some(device) => {
            is_of_version(&device, head, version) && opens_with(rt, alloc, &device, is_wide)
        }
        None => false,
    }
}

#[test]
fn networks_have_their_heads(rt: HostRuntime) {
    for (i, row) in ROWS.iter().enumerate() {
        assert!(rt; has_its_head(&rt, rt.alloc(), row), "row {i}");
    }
}

/// Changes of the device of one node with a group of four entries, whose head is a narrow one.
const NARROW: &[Content] = &[
    ([7, NO, NO, NO, NO, NO], [0, 0, 0, 0, 0, 0], Err(BadVersion)),
    ([7, NO, NO, NO, NO, NO], [3, 0, 0, 0, 0, 0], Err(BadVersion)),
    ([7, NO, NO, NO, NO, NO], [2, 0, 0, 0, 0, 0], Err(Damaged(0))),
    // Nodes, ports, and pages that there may not be.
    ([8, NO, NO, NO, NO, NO], [0, 0, 0, 0, 0, 0], Err(Damaged(0))),
    (
        [8, NO, NO, NO, NO, NO],
        [17, 0, 0, 0, 0, 0],
        Err(Damaged(0)),
    ),
    ([9, NO, NO, NO, NO, NO], [9, 0, 0, 0, 0, 0], Err(Damaged(0))),
    (
        [24, 25, NO, NO, NO, NO],
        [1, 1, 0, 0, 0, 0],
        Err(Damaged(0)),
    ),
    // The link leads to a port that doesn't exist, to a node that doesn't, and nowhere.
    (
        [56, NO, NO, NO, NO, NO],
        [0x81, 0, 0, 0, 0, 0],
        Err(Damaged(0)),
    ),
    (
        [56, NO, NO, NO, NO, NO],
        [5, 0, 0, 0, 0, 0],
        Err(Damaged(0)),
    ),
    ([56, 13_033, NO, NO, NO, NO], [0, 0, 0, 0, 0, 0], Ok(0)),
    // Bytes that are 00.
    (
        [10, NO, NO, NO, NO, NO],
        [1, 0, 0, 0, 0, 0],
        Err(Damaged(0)),
    ),
    (
        [26, NO, NO, NO, NO, NO],
        [4, 0, 0, 0, 0, 0],
        Err(Damaged(0)),
    ),
    (
        [120, NO, NO, NO, NO, NO],
        [1, 0, 0, 0, 0, 0],
        Err(Damaged(0)),
    ),
    (
        [511, NO, NO, NO, NO, NO],
        [1, 0, 0, 0, 0, 0],
        Err(Damaged(0)),
    ),
];

#[test]
fn heads_are_changed(rt: HostRuntime) {
    play(&rt, rt.alloc(), grown(rt.alloc()), NARROW);
}

/// The wide head of the network of one node, whose link leads to its port.
const ONE_WIDE: &[(usize, &[u8])] = &[(7, &[2]), (56, &[0]), (152, &[0, 0x80])];

/// The device of one node with a wide head.
fn widened(alloc: Global) -> Option<Vec<u8>> {
    let Some(narrow) = grown(alloc) else {
        return None;
    };
    match other_head(alloc, &narrow, false) {
        Some(moved) => with_pieces(alloc, &moved, ONE_WIDE),
        None => None,
    }
}

/// A wide head says a narrow network, too: the device of one node opens with one as it does with its own.
#[test]
fn a_wide_head_of_a_small_network(rt: HostRuntime) {
    let told = match widened(rt.alloc()) {
        Some(wide) => is_said(&rt, rt.alloc(), &wide, Ok(4)),
        None => false,
    };
    assert!(rt; told);
}
