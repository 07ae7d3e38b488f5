//! Devices that are opened each node by itself, by several workers, and in one thread: both calls agree.

use crate::crowd::Crowd;
use crate::devices::{Held, disk_of, formatted, held_after, is_same};
use crate::opened_books::grown;
use std::alloc::Global;
use std::process::Abort;
use std::thread::Threads;
use tp_disk::MemDisk;
use tp_model::OpenFault;
use tp_model::OpenFault::Damaged;
use tp_model::limits::NARROW_HEAD_BYTES;
use tp_recover::{Opened, Unopened, open, open_parallel};
use tp_replay::NoGate;
use tp_tests_fixtures::place;

/// How many workers open each device: one; two; more than there are nodes; and the most there may be.
const WORKERS: [u8; 4] = [1, 2, 16, 64];

/// Places of a device, and the bytes that are there in place of its own; and the next number that it then has, or why it doesn't open. A row has only
/// arrays of numbers: each reference within a table costs check time.
pub(crate) type Content = ([usize; 6], [u8; 6], Result<u64, OpenFault>);

/// What is no place.
pub(crate) const NO: usize = usize::MAX;

/// The device of one node, whose group has four entries, of 16 bytes each from 13,049 on: a run of 3 steps, the letter, its acknowledge, and a run of
/// 16 steps.
const ONE: &[Content] = &[
    ([NO, NO, NO, NO, NO, NO], [0, 0, 0, 0, 0, 0], Ok(4)),
    // No group.
    ([13_033, NO, NO, NO, NO, NO], [0, 0, 0, 0, 0, 0], Ok(0)),
    // Another letter is named than the node sent.
    (
        [13_069, NO, NO, NO, NO, NO],
        [0x42, 0, 0, 0, 0, 0],
        Err(Damaged(13_065)),
    ),
    // The run is too short: the letter isn't sent yet.
    (
        [13_051, NO, NO, NO, NO, NO],
        [2, 0, 0, 0, 0, 0],
        Err(Damaged(13_065)),
    ),
    // There is no such step.
    (
        [13_051, NO, NO, NO, NO, NO],
        [4, 0, 0, 0, 0, 0],
        Err(Damaged(13_049)),
    ),
    // Another letter, and after it what is no entry.
    (
        [13_069, 13_097, NO, NO, NO, NO],
        [0x42, 9, 0, 0, 0, 0],
        Err(Damaged(13_065)),
    ),
    // What is no entry, and after it another letter.
    (
        [13_049, 13_069, NO, NO, NO, NO],
        [9, 0x42, 0, 0, 0, 0],
        Err(Damaged(13_049)),
    ),
    // What is no entry, after entries that are all possible.
    (
        [13_097, NO, NO, NO, NO, NO],
        [9, 0, 0, 0, 0, 0],
        Err(Damaged(13_097)),
    ),
    // A number out of order, and another letter before it.
    (
        [13_105, NO, NO, NO, NO, NO],
        [4, 0, 0, 0, 0, 0],
        Err(Damaged(13_097)),
    ),
    (
        [13_105, 13_069, NO, NO, NO, NO],
        [4, 0x42, 0, 0, 0, 0],
        Err(Damaged(13_065)),
    ),
    // An open gate without a group after it, and another letter before it.
    (
        [13_113, NO, NO, NO, NO, NO],
        [0xA5, 0, 0, 0, 0, 0],
        Err(Damaged(13_113)),
    ),
    (
        [13_113, 13_069, NO, NO, NO, NO],
        [0xA5, 0x42, 0, 0, 0, 0],
        Err(Damaged(13_065)),
    ),
    // Node 40, line 263 and port 1 aren't there.
    (
        [13_050, NO, NO, NO, NO, NO],
        [0x28, 0, 0, 0, 0, 0],
        Err(Damaged(13_049)),
    ),
    (
        [13_067, 13_068, NO, NO, NO, NO],
        [7, 1, 0, 0, 0, 0],
        Err(Damaged(13_065)),
    ),
    (
        [13_097, 13_098, 13_099, 13_100, NO, NO],
        [3, 1, 0x78, 0, 0, 0],
        Err(Damaged(13_097)),
    ),
    // The acknowledge of a byte that nobody sent.
    (
        [13_066, 13_067, 13_068, 13_069, NO, NO],
        [2, 4, 0, 0, 0, 0],
        Err(Damaged(13_065)),
    ),
];

/// Two nodes. Each sends the letter A on link 0, which is wired to the other.
const PAIR: &[u8] = b"node left 4\nnode right 4\nport h\nwire left.0 right.0\nwire right.3 h\n";

/// Bytes of an area of their device, and its group: each makes 3 steps, and takes the letter of the other.
const PAIR_AREA: u64 = 65_536;

const PAIR_GROUPS: usize = 17_317;

const PAIR_GROUP: &[u8] = &[
    0xA5, 0, 4, 0, 0, 0, 0, 0, 0, 0, 0, 0, 0, 0, 0, 0, // the header
    1, 0, 3, 0, 0, 0, 0, 0, 0, 0, 0, 0, 0, 0, 0, 0, //
    1, 1, 3, 0, 0, 0, 0, 0, 1, 0, 0, 0, 0, 0, 0, 0, //
    2, 1, 0, 0, 0x41, 0, 0, 0, 2, 0, 0, 0, 0, 0, 0, 0, //
    2, 1, 4, 0, 0x41, 0, 0, 0, 3, 0, 0, 0, 0, 0, 0, 0, //
    0,
];

/// The device of the two.
const TWO: &[Content] = &[
    ([NO, NO, NO, NO, NO, NO], [0, 0, 0, 0, 0, 0], Ok(4)),
    ([17_317, NO, NO, NO, NO, NO], [0, 0, 0, 0, 0, 0], Ok(0)),
    // The second node takes another letter than the first one sent; and then so does the first.
    (
        [17_369, NO, NO, NO, NO, NO],
        [0x42, 0, 0, 0, 0, 0],
        Err(Damaged(17_365)),
    ),
    (
        [17_369, 17_385, NO, NO, NO, NO],
        [0x42, 0x43, 0, 0, 0, 0],
        Err(Damaged(17_365)),
    ),
    // The first node alone does.
    (
        [17_385, NO, NO, NO, NO, NO],
        [0x43, 0, 0, 0, 0, 0],
        Err(Damaged(17_381)),
    ),
    // It takes the second one's letter before that is sent.
    (
        [17_351, NO, NO, NO, NO, NO],
        [2, 0, 0, 0, 0, 0],
        Err(Damaged(17_381)),
    ),
    // The second node takes another letter than the first one sent, and what is no entry is after that.
    (
        [17_369, 17_381, NO, NO, NO, NO],
        [0x42, 9, 0, 0, 0, 0],
        Err(Damaged(17_365)),
    ),
    // The second node takes the letter twice.
    (
        [17_383, NO, NO, NO, NO, NO],
        [0, 0, 0, 0, 0, 0],
        Err(Damaged(17_381)),
    ),
    // No third node is there.
    (
        [17_334, NO, NO, NO, NO, NO],
        [2, 0, 0, 0, 0, 0],
        Err(Damaged(17_333)),
    ),
];

/// A device of two nodes with that group.
fn pair(alloc: Global) -> Option<Vec<u8>> {
    let Some(mut bytes) = formatted(alloc, PAIR, 2, NARROW_HEAD_BYTES, PAIR_AREA) else {
        return None;
    };
    place(&mut bytes, PAIR_GROUPS, PAIR_GROUP);
    Some(bytes)
}

/// Whether the open areas of two devices are alike.
fn are_alike(one: &Opened, other: &Opened) -> bool {
    one.second() == other.second()
        && (one.generation(), one.base(), one.end())
            == (other.generation(), other.base(), other.end())
        && one.kept() == other.kept()
}

/// Whether both hold something, and their numbers, nodes, lines and ports are equal.
fn are_same(one: &Option<Held>, other: &Option<Held>) -> bool {
    match (one, other) {
        (Some(one), Some(other)) => is_same(one, other),
        _ => false,
    }
}

/// Whether an opened device has the number of the next entry that it ought to.
pub(crate) fn has_next(opened: &Opened, says: Result<u64, OpenFault>) -> bool {
    match says {
        Ok(next) => opened.next() == next,
        Err(_) => false,
    }
}

/// Whether a device doesn't open for the fault that it ought to have.
pub(crate) fn is_fault(found: Unopened, says: Result<u64, OpenFault>) -> bool {
    match says {
        Ok(_) => false,
        Err(fault) => found == Unopened::Fault(fault),
    }
}

/// Whether two devices, each opened by one of both calls, hold equal things, and have the next number that they ought to.
fn hold_same(alloc: Global, one: Opened, other: Opened, says: Result<u64, OpenFault>) -> bool {
    let same = has_next(&one, says) && are_alike(&one, &other);
    let one = held_after(alloc, one, b"");
    let other = held_after(alloc, other, b"");
    same && are_same(&one, &other)
}

/// Whether the other call opens the device, too, and both say this of it.
fn both_open(
    alloc: Global,
    one: Opened,
    other: Result<Opened, Unopened>,
    says: Result<u64, OpenFault>,
) -> bool {
    match other {
        Ok(other) => hold_same(alloc, one, other, says),
        Err(_) => false,
    }
}

/// Whether the other call doesn't open the device either, and both answer the fault that it ought to have.
fn neither_opens(
    found: Unopened,
    other: Result<Opened, Unopened>,
    says: Result<u64, OpenFault>,
) -> bool {
    match other {
        Ok(_) => false,
        Err(other) => is_fault(found, says) && is_fault(other, says),
    }
}

/// Whether both calls answer this.
fn both_say(
    alloc: Global,
    one: Result<Opened, Unopened>,
    other: Result<Opened, Unopened>,
    says: Result<u64, OpenFault>,
) -> bool {
    match one {
        Ok(one) => both_open(alloc, one, other, says),
        Err(found) => neither_opens(found, other, says),
    }
}

/// Whether a device says this, opened in one thread and by `workers` workers.
fn is_said_by<R: Threads + Sync>(
    rt: &R,
    alloc: Global,
    bytes: &[u8],
    workers: u8,
    says: Result<u64, OpenFault>,
) -> bool {
    let Some(mut disk) = disk_of(alloc, bytes) else {
        return false;
    };
    let apart = open_parallel(alloc, &mut disk, workers.clamp(1, 64), &NoGate, rt);
    let whole = open(alloc, &mut disk);
    both_say(alloc, whole, apart, says)
}

/// Whether a device says this, opened in one thread and by any number of workers.
pub(crate) fn is_said<R: Threads + Sync>(
    rt: &R,
    alloc: Global,
    bytes: &[u8],
    says: Result<u64, OpenFault>,
) -> bool {
    for workers in WORKERS {
        if !is_said_by(rt, alloc, bytes, workers, says) {
            return false;
        }
    }
    true
}

/// A device with pieces over its bytes.
pub(crate) fn with_pieces(
    alloc: Global,
    device: &[u8],
    pieces: &[(usize, &[u8])],
) -> Option<Vec<u8>> {
    let Ok(mut bytes) = Vec::from_slice(alloc, device) else {
        return None;
    };
    for (at, piece) in pieces {
        place(&mut bytes, *at, piece);
    }
    Some(bytes)
}

/// Whether a device with the bytes of a row says what the row does.
fn is_row<R: Threads + Sync>(rt: &R, alloc: Global, device: &[u8], content: &Content) -> bool {
    let Ok(mut bytes) = Vec::from_slice(alloc, device) else {
        return false;
    };
    for (at, byte) in content.0.iter().zip(&content.1) {
        place(&mut bytes, *at, &[*byte]);
    }
    is_said(rt, alloc, &bytes, content.2)
}

/// Plays a table over a device.
pub(crate) fn play<R: Threads + Sync + Abort>(
    rt: &R,
    alloc: Global,
    device: Option<Vec<u8>>,
    contents: &[Content],
) {
    for (i, content) in contents.iter().enumerate() {
        let told = match &device {
            Some(device) => is_row(rt, alloc, device, content),
            None => false,
        };
        assert!(rt; told, "content {i}");
    }
}

#[test]
fn one_node_by_itself(rt: HostRuntime) {
    play(&rt, rt.alloc(), grown(rt.alloc()), ONE);
}

#[test]
fn two_nodes_each_by_itself(rt: HostRuntime) {
    play(&rt, rt.alloc(), pair(rt.alloc()), TWO);
}

/// Six nodes without a wire between them.
const SIX: &[u8] =
    b"node a 4\nnode b 4\nnode c 4\nnode d 4\nnode e 4\nnode f 4\nport h\nwire a.0 h\n";

/// Whether a device opens by as many workers as it has nodes, and their pieces, and no other one, meet at the gate as they begin, each with its node.
fn meet<R: Threads + Sync>(rt: &R, alloc: Global, device: Option<Vec<u8>>, nodes: u8) -> bool {
    let Some(bytes) = device else {
        return false;
    };
    let gate = Crowd::new(u32::from(nodes));
    let mut disk = MemDisk::of_bytes(bytes);
    let is_open = open_parallel(alloc, &mut disk, nodes.clamp(1, 64), &gate, rt).is_ok();
    let count = u32::from(nodes);
    let all = 1u32.wrapping_shl(count).wrapping_sub(1);
    is_open && gate.counts() == (count, count, all)
}

/// In one thread the first piece would look for the second in vain, and in two threads the first pair of six for the others.
#[test]
fn all_pieces_meet_at_the_gate(rt: HostRuntime) {
    let two = pair(rt.alloc());
    assert!(rt; meet(&rt, rt.alloc(), two, 2));
    let six = formatted(rt.alloc(), SIX, 6, NARROW_HEAD_BYTES, PAIR_AREA);
    assert!(rt; meet(&rt, rt.alloc(), six, 6));
}
