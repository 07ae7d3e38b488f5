//! Entries and their bytes, turns among them.

use tp_model::Entry;
use tp_model::Form::{Plain, Turns};
use tp_model::Received::{AckThenData, DataThenAck, JustAck, JustData, Nothing};
use tp_model::Token::{Ack, Data};
use tp_model::limits::NUMBER_LIMIT;
use tp_net::entry::{BadEntry, get, get_row, number_of, put};
use tp_net::{Numbered, is_in_range};

/// An entry, its number, and their bytes; and whether an area without turns may hold it.
type Spelling = (Entry, u64, [u8; 16], bool);

/// The last number.
const LAST: u64 = 0xFFFF_FFFF_FFFF;

/// Whether the entry with its number is written as its bytes, and they are read as it, in areas that may hold it.
fn is_spelt(spelling: &Spelling) -> bool {
    let (entry, number, bytes, is_plain) = *spelling;
    if !is_in_range(entry) || number >= NUMBER_LIMIT {
        return false;
    }
    let numbered = Numbered { entry, number };
    let mut written = [0xEE; 16];
    put(&numbered, &mut written);
    let read = Ok(numbered);
    let plain = if is_plain { read } else { Err(BadEntry) };
    written == bytes
        && get(&bytes) == read
        && get_row(Turns, &bytes) == read
        && get_row(Plain, &bytes) == plain
}

/// Each kind, with small values and with the greatest.
const ROWS: [Spelling; 14] = [
    (
        Entry::Run { node: 0, count: 3 },
        0,
        [1, 0, 3, 0, 0, 0, 0, 0, 0, 0, 0, 0, 0, 0, 0, 0],
        true,
    ),
    (
        Entry::Run { node: 0, count: 3 },
        7,
        [1, 0, 3, 0, 0, 0, 0, 0, 7, 0, 0, 0, 0, 0, 0, 0],
        true,
    ),
    (
        Entry::Take {
            line: 0,
            token: Data(0x41),
        },
        1,
        [2, 1, 0, 0, 0x41, 0, 0, 0, 1, 0, 0, 0, 0, 0, 0, 0],
        true,
    ),
    (
        Entry::Take {
            line: 4,
            token: Ack,
        },
        2,
        [2, 2, 4, 0, 0, 0, 0, 0, 2, 0, 0, 0, 0, 0, 0, 0],
        true,
    ),
    (
        Entry::HostIn {
            port: 1,
            byte: 0x5A,
        },
        258,
        [3, 1, 0x5A, 0, 0, 0, 0, 0, 2, 1, 0, 0, 0, 0, 0, 0],
        true,
    ),
    (
        Entry::Confirm {
            port: 1,
            upto: 0x3_0000_0102,
        },
        3,
        [4, 1, 3, 0, 2, 1, 0, 0, 3, 0, 0, 0, 0, 0, 0, 0],
        true,
    ),
    // The greatest values.
    (
        Entry::Run {
            node: 63,
            count: 4096,
        },
        LAST,
        [1, 63, 0, 16, 0, 0, 0, 0, 255, 255, 255, 255, 255, 255, 0, 0],
        true,
    ),
    (
        Entry::Take {
            line: 263,
            token: Data(255),
        },
        0,
        [2, 1, 7, 1, 255, 0, 0, 0, 0, 0, 0, 0, 0, 0, 0, 0],
        true,
    ),
    (
        Entry::HostIn { port: 7, byte: 255 },
        0,
        [3, 7, 255, 0, 0, 0, 0, 0, 0, 0, 0, 0, 0, 0, 0, 0],
        true,
    ),
    (
        Entry::Confirm {
            port: 7,
            upto: LAST,
        },
        0,
        [4, 7, 255, 255, 255, 255, 255, 255, 0, 0, 0, 0, 0, 0, 0, 0],
        true,
    ),
    // Turns: an acknowledge; a byte; something on each link; and bytes of zero.
    (
        Entry::Turn {
            node: 0,
            takes: [JustAck, Nothing, Nothing, Nothing],
            count: 16,
        },
        2,
        [5, 0, 16, 0, 0, 0, 0, 0, 2, 0, 0, 0, 0, 0, 2, 0],
        false,
    ),
    (
        Entry::Turn {
            node: 3,
            takes: [Nothing, JustData(0x5A), Nothing, Nothing],
            count: 0,
        },
        300,
        [5, 3, 0, 0, 0, 0x5A, 0, 0, 0x2C, 1, 0, 0, 0, 0, 8, 0],
        false,
    ),
    (
        Entry::Turn {
            node: 63,
            takes: [
                DataThenAck(1),
                AckThenData(2),
                DataThenAck(255),
                AckThenData(4),
            ],
            count: 4096,
        },
        LAST,
        [
            5, 63, 0, 16, 1, 2, 255, 4, 255, 255, 255, 255, 255, 255, 0xE3, 8,
        ],
        false,
    ),
    (
        Entry::Turn {
            node: 0,
            takes: [Nothing, Nothing, JustData(0), JustAck],
            count: 1,
        },
        0,
        [5, 0, 1, 0, 0, 0, 0, 0, 0, 0, 0, 0, 0, 0, 0x40, 4],
        false,
    ),
];

#[test]
fn each_kind_has_its_bytes(rt: HostRuntime) {
    let rows = ROWS;
    for (i, row) in rows.iter().enumerate() {
        assert!(rt; is_spelt(row), "row {i}");
    }
}

/// Bytes that no entry has.
const NO_ENTRIES: &[[u8; 16]] = &[
    [0, 0, 1, 0, 0, 0, 0, 0, 0, 0, 0, 0, 0, 0, 0, 0],
    [6, 0, 1, 0, 0, 0, 0, 0, 0, 0, 0, 0, 0, 0, 0, 0],
    [1, 64, 1, 0, 0, 0, 0, 0, 0, 0, 0, 0, 0, 0, 0, 0],
    [1, 0, 0, 0, 0, 0, 0, 0, 0, 0, 0, 0, 0, 0, 0, 0],
    [1, 0, 1, 16, 0, 0, 0, 0, 0, 0, 0, 0, 0, 0, 0, 0],
    [1, 0, 1, 0, 1, 0, 0, 0, 0, 0, 0, 0, 0, 0, 0, 0],
    [1, 0, 1, 0, 0, 0, 0, 1, 0, 0, 0, 0, 0, 0, 0, 0],
    [2, 0, 0, 0, 0, 0, 0, 0, 0, 0, 0, 0, 0, 0, 0, 0],
    [2, 3, 0, 0, 0, 0, 0, 0, 0, 0, 0, 0, 0, 0, 0, 0],
    [2, 1, 8, 1, 0, 0, 0, 0, 0, 0, 0, 0, 0, 0, 0, 0],
    [2, 1, 0, 0, 0, 1, 0, 0, 0, 0, 0, 0, 0, 0, 0, 0],
    [2, 2, 8, 1, 0, 0, 0, 0, 0, 0, 0, 0, 0, 0, 0, 0],
    [2, 2, 0, 0, 0x41, 0, 0, 0, 0, 0, 0, 0, 0, 0, 0, 0],
    [3, 8, 0x41, 0, 0, 0, 0, 0, 0, 0, 0, 0, 0, 0, 0, 0],
    [3, 0, 0, 1, 0, 0, 0, 0, 0, 0, 0, 0, 0, 0, 0, 0],
    [3, 0, 0x41, 0, 1, 0, 0, 0, 0, 0, 0, 0, 0, 0, 0, 0],
    [4, 8, 0, 0, 0, 0, 0, 0, 0, 0, 0, 0, 0, 0, 0, 0],
    [4, 255, 0, 0, 0, 0, 0, 0, 0, 0, 0, 0, 0, 0, 0, 0],
    [1, 0, 1, 0, 0, 0, 0, 0, 0, 0, 0, 0, 0, 0, 1, 0],
    [4, 0, 0, 0, 0, 0, 0, 0, 0, 0, 0, 0, 0, 0, 0, 1],
    [
        255, 255, 255, 255, 255, 255, 255, 255, 255, 255, 255, 255, 255, 255, 255, 255,
    ],
    // a turn that takes nothing
    [5, 0, 16, 0, 0, 0, 0, 0, 2, 0, 0, 0, 0, 0, 0, 0],
    // digits of 5, 6 and 7, on the first and the last link
    [5, 0, 16, 0, 0, 0, 0, 0, 2, 0, 0, 0, 0, 0, 5, 0],
    [5, 0, 16, 0, 0, 0, 0, 0, 2, 0, 0, 0, 0, 0, 6, 0],
    [5, 0, 16, 0, 0, 0, 0, 0, 2, 0, 0, 0, 0, 0, 7, 0],
    [5, 0, 16, 0, 0, 0, 0, 0, 2, 0, 0, 0, 0, 0, 0, 10],
    [5, 0, 16, 0, 0, 0, 0, 0, 2, 0, 0, 0, 0, 0, 0, 14],
    // bits 12 to 15
    [5, 0, 16, 0, 0, 0, 0, 0, 2, 0, 0, 0, 0, 0, 2, 0x10],
    [5, 0, 16, 0, 0, 0, 0, 0, 2, 0, 0, 0, 0, 0, 2, 0x20],
    [5, 0, 16, 0, 0, 0, 0, 0, 2, 0, 0, 0, 0, 0, 2, 0x40],
    [5, 0, 16, 0, 0, 0, 0, 0, 2, 0, 0, 0, 0, 0, 2, 0x80],
    // a data byte on a link that gave no data, an acknowledge or nothing
    [5, 0, 16, 0, 1, 0, 0, 0, 2, 0, 0, 0, 0, 0, 2, 0],
    [5, 0, 16, 0, 0, 1, 0, 0, 2, 0, 0, 0, 0, 0, 2, 0],
    [5, 0, 16, 0, 0, 0, 0, 1, 2, 0, 0, 0, 0, 0, 1, 0],
    // a node and a count after their limits
    [5, 64, 16, 0, 0, 0, 0, 0, 2, 0, 0, 0, 0, 0, 2, 0],
    [5, 0, 1, 16, 0, 0, 0, 0, 2, 0, 0, 0, 0, 0, 2, 0],
];

/// Whether bytes are no entry, whatever the area's form is.
fn is_none(bytes: &[u8; 16]) -> bool {
    get(bytes) == Err(BadEntry)
        && get_row(Plain, bytes) == Err(BadEntry)
        && get_row(Turns, bytes) == Err(BadEntry)
}

#[test]
fn other_bytes_are_no_entry(rt: HostRuntime) {
    for (i, bytes) in NO_ENTRIES.iter().enumerate() {
        assert!(rt; is_none(bytes), "row {i}");
    }
}

#[test]
fn a_turns_number_has_six_bytes(rt: HostRuntime) {
    let turn = [5, 3, 0, 0, 0, 0x5A, 0, 0, 0x2C, 1, 0, 0, 0, 0, 8, 0];
    let no_turn = [5, 3, 0, 0, 0, 0, 0, 0, 1, 2, 3, 4, 5, 6, 0xFF, 0xFF];
    let other_kind = [6, 3, 0, 0, 0, 0, 0, 0, 1, 0, 0, 0, 0, 0, 1, 0];
    assert!(rt;
        number_of(&turn) == 300
            && number_of(&no_turn) == 0x0605_0403_0201
            && number_of(&other_kind) == 0x0001_0000_0000_0001
    );
}
