//! Groups of entries and their bytes.

use std::alloc::{AllocError, Global};
use tp_model::Token::Ack;
use tp_model::{BadGroup, Entry};
use tp_net::entry::{BadEntry, get};
use tp_net::{Numbered, put_group_body, read_group};

/// A group of one entry, number 7, a run of 5 steps of node 0; and the next gate, closed.
const ONE_ENTRY: [u8; 33] = [
    0xA5, 0, 1, 0, 0, 0, 0, 0, 7, 0, 0, 0, 0, 0, 0, 0, // the header
    1, 0, 5, 0, 0, 0, 0, 0, 7, 0, 0, 0, 0, 0, 0, 0, //
    0,
];

/// How many entries are read, if a group is there.
fn count_in(bytes: &[u8]) -> Result<Option<usize>, BadGroup> {
    match read_group(bytes) {
        Ok(Some(group)) => Ok(Some(group.entries().len())),
        Ok(None) => Ok(None),
        Err(fault) => Err(fault),
    }
}

/// The group with the byte at `at` changed.
fn changed(at: usize, byte: u8) -> [u8; 33] {
    let mut other = ONE_ENTRY;
    if let Some(place) = other.get_mut(at) {
        *place = byte;
    }
    other
}

/// Whether the bytes are a group of one entry, which reads as wanted.
fn reads_as(bytes: &[u8], want: Result<Numbered, BadEntry>) -> bool {
    let Ok(Some(group)) = read_group(bytes) else {
        return false;
    };
    match group.entries() {
        [row] => get(row) == want,
        _ => false,
    }
}

/// Bytes of a kind that there isn't make no bad group.
#[test]
fn one_entry_is_read(rt: HostRuntime) {
    let run = Numbered {
        entry: Entry::Run { node: 0, count: 5 },
        number: 7,
    };
    assert!(rt; reads_as(&ONE_ENTRY, Ok(run)) && reads_as(&changed(16, 9), Err(BadEntry)));
}

/// A group without its last bytes is none.
#[test]
fn parts_of_a_group_are_none(rt: HostRuntime) {
    for count in 0..ONE_ENTRY.len() {
        assert!(rt;
            count_in(&ONE_ENTRY[..count]) == Err(BadGroup),
            "{count} bytes"
        );
    }
}

/// A byte of a group: its place, what is there instead, and how many entries are then read.
type Change = (usize, u8, Result<Option<usize>, BadGroup>);

/// What is there, and after one byte was changed.
const CHANGES: &[Change] = &[
    (0, 0xA5, Ok(Some(1))),
    (0, 0xA4, Ok(None)),
    (0, 0, Ok(None)),
    (0, 0x5A, Ok(None)),
    (1, 1, Err(BadGroup)),
    (2, 0, Err(BadGroup)),
    (2, 2, Err(BadGroup)),
    (3, 1, Err(BadGroup)),
    (4, 1, Err(BadGroup)),
    (5, 1, Err(BadGroup)),
    (6, 1, Err(BadGroup)),
    (7, 1, Err(BadGroup)),
    (8, 6, Err(BadGroup)),
    (15, 1, Err(BadGroup)),
    (24, 8, Err(BadGroup)),
    (31, 1, Err(BadGroup)),
    (16, 9, Ok(Some(1))),
    (18, 6, Ok(Some(1))),
    (32, 0xA5, Ok(Some(1))),
    (32, 1, Ok(Some(1))),
];

#[test]
fn one_byte_is_changed(rt: HostRuntime) {
    for (at, byte, want) in CHANGES {
        assert!(rt; count_in(&changed(*at, *byte)) == *want, "byte {at}");
    }
}

/// Two entries after the gate, with the next gate, closed.
const TWO_ENTRIES: [u8; 48] = [
    0, 2, 0, 0, 0, 0, 0, 7, 0, 0, 0, 0, 0, 0, 0, // the header
    1, 0, 5, 0, 0, 0, 0, 0, 7, 0, 0, 0, 0, 0, 0, 0, //
    2, 2, 4, 0, 0, 0, 0, 0, 9, 0, 0, 0, 0, 0, 0, 0, //
    0,
];

#[test]
fn two_entries_are_written(rt: HostRuntime) {
    let entries = [
        Numbered {
            entry: Entry::Run { node: 0, count: 5 },
            number: 7,
        },
        Numbered {
            entry: Entry::Take {
                line: 4,
                token: Ack,
            },
            number: 9,
        },
    ];
    let mut written = [0xEE; 50];
    put_group_body(&entries, &mut written);
    let (group, rest) = written.as_slice().split_at(48);
    assert!(rt; group == TWO_ENTRIES.as_slice() && rest == [0xEE, 0xEE].as_slice());
}

/// A group of entries with `numbers`, each the run of a step.
fn group_of(alloc: Global, numbers: &[u8]) -> Result<Vec<u8>, AllocError> {
    let first = numbers.first().copied().unwrap_or(0);
    let count = numbers.len().min(255) as u8;
    let header = [0xA5, 0, count, 0, 0, 0, 0, 0, first, 0, 0, 0, 0, 0, 0, 0];
    let mut bytes = Vec::from_slice(alloc, &header)?;
    for number in numbers {
        bytes.extend_from_slice(&[1, 0, 1, 0, 0, 0, 0, 0, *number, 0, 0, 0, 0, 0, 0, 0])?;
    }
    bytes.push(0)?;
    Ok(bytes)
}

/// As many numbers as a group may have at most.
const MOST: [u8; 64] = [
    0, 1, 2, 3, 4, 5, 6, 7, 8, 9, 10, 11, 12, 13, 14, 15, 16, 17, 18, 19, 20, 21, 22, 23, 24, 25,
    26, 27, 28, 29, 30, 31, 32, 33, 34, 35, 36, 37, 38, 39, 40, 41, 42, 43, 44, 45, 46, 47, 48, 49,
    50, 51, 52, 53, 54, 55, 56, 57, 58, 59, 60, 61, 62, 63,
];

/// One more.
const ONE_MORE: [u8; 65] = [
    0, 1, 2, 3, 4, 5, 6, 7, 8, 9, 10, 11, 12, 13, 14, 15, 16, 17, 18, 19, 20, 21, 22, 23, 24, 25,
    26, 27, 28, 29, 30, 31, 32, 33, 34, 35, 36, 37, 38, 39, 40, 41, 42, 43, 44, 45, 46, 47, 48, 49,
    50, 51, 52, 53, 54, 55, 56, 57, 58, 59, 60, 61, 62, 63, 64,
];

/// The numbers of a group's entries, and how many are read.
type Numbers<'a> = (&'a [u8], Result<Option<usize>, BadGroup>);

const NUMBERS: &[Numbers<'static>] = &[
    (&[0], Ok(Some(1))),
    (&[7, 8, 9], Ok(Some(3))),
    (&[7, 9, 200], Ok(Some(3))),
    (&[7, 7], Err(BadGroup)),
    (&[7, 9, 8], Err(BadGroup)),
    (&[], Err(BadGroup)),
    (&MOST, Ok(Some(64))),
    (&ONE_MORE, Err(BadGroup)),
];

/// Whether the group of a row's numbers is read so.
fn is_read(alloc: Global, row: &Numbers<'_>) -> bool {
    let (numbers, want) = *row;
    match group_of(alloc, numbers) {
        Ok(bytes) => count_in(&bytes) == want,
        Err(_) => false,
    }
}

#[test]
fn numbers_rise_and_entries_are_few(rt: HostRuntime) {
    for (i, row) in NUMBERS.iter().enumerate() {
        assert!(rt; is_read(rt.alloc(), row), "row {i}");
    }
}
