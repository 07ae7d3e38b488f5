//! Areas of both forms: what says an area's form, and which entries each may hold.

use crate::apart::{Content, NO, is_said, play, with_pieces};
use crate::devices::{fresh, leads_from};
use crate::kept::kept_bytes;
use crate::opened_books::grown;
use std::alloc::Global;
use std::process::Abort;
use std::thread::Threads;
use tp_model::OpenFault;
use tp_model::OpenFault::Damaged;
use tp_tests_fixtures::AREA;

/// The device of one node with a group of four entries. The base of its first area's cut is at 525, in six bytes, and the area's form
/// after it.
const FIRST: &[Content] = &[
    ([531, 532, NO, NO, NO, NO], [0, 0, 0, 0, 0, 0], Ok(4)),
    (
        [531, 532, NO, NO, NO, NO],
        [1, 0, 0, 0, 0, 0],
        Err(Damaged(512)),
    ),
    ([531, 532, NO, NO, NO, NO], [2, 0, 0, 0, 0, 0], Ok(4)),
    (
        [531, 532, NO, NO, NO, NO],
        [3, 0, 0, 0, 0, 0],
        Err(Damaged(512)),
    ),
    (
        [531, 532, NO, NO, NO, NO],
        [0, 2, 0, 0, 0, 0],
        Err(Damaged(512)),
    ),
    (
        [531, 532, NO, NO, NO, NO],
        [2, 2, 0, 0, 0, 0],
        Err(Damaged(512)),
    ),
    (
        [531, 532, NO, NO, NO, NO],
        [2, 0x80, 0, 0, 0, 0],
        Err(Damaged(512)),
    ),
    // The greatest bases. The last number isn't given.
    (
        [525, 526, 527, 528, 529, 530],
        [0, 0, 0, 0, 0, 1],
        Ok(0x0100_0000_0004),
    ),
    (
        [525, 526, 527, 528, 529, 530],
        [0xFB, 0xFF, 0xFF, 0xFF, 0xFF, 0xFF],
        Ok(0xFFFF_FFFF_FFFF),
    ),
    (
        [525, 526, 527, 528, 529, 530],
        [0xFC, 0xFF, 0xFF, 0xFF, 0xFF, 0xFF],
        Err(Damaged(13_097)),
    ),
    // The length of the cut image is damaged, too; the generation; an image; the first entry.
    (
        [531, 521, NO, NO, NO, NO],
        [1, 0xDD, 0, 0, 0, 0],
        Err(Damaged(512)),
    ),
    (
        [531, 521, NO, NO, NO, NO],
        [0, 0xDD, 0, 0, 0, 0],
        Err(Damaged(512)),
    ),
    (
        [531, 519, NO, NO, NO, NO],
        [0, 1, 0, 0, 0, 0],
        Err(Damaged(512)),
    ),
    (
        [531, 533, NO, NO, NO, NO],
        [1, 2, 0, 0, 0, 0],
        Err(Damaged(512)),
    ),
    (
        [531, 533, NO, NO, NO, NO],
        [0, 2, 0, 0, 0, 0],
        Err(Damaged(533)),
    ),
    (
        [531, 13_049, NO, NO, NO, NO],
        [1, 9, 0, 0, 0, 0],
        Err(Damaged(512)),
    ),
];

/// A device that was kept, with two runs after a checkpoint: its second area counts.
const SECOND: &[Content] = &[
    (
        [16_915, NO, NO, NO, NO, NO],
        [1, 0, 0, 0, 0, 0],
        Err(Damaged(16_896)),
    ),
    ([16_915, NO, NO, NO, NO, NO], [2, 0, 0, 0, 0, 0], Ok(7)),
    (
        [16_915, NO, NO, NO, NO, NO],
        [3, 0, 0, 0, 0, 0],
        Err(Damaged(16_896)),
    ),
    (
        [16_916, NO, NO, NO, NO, NO],
        [2, 0, 0, 0, 0, 0],
        Err(Damaged(16_896)),
    ),
    // The first one isn't read on.
    ([531, NO, NO, NO, NO, NO], [1, 0, 0, 0, 0, 0], Ok(7)),
    // Its last run as a turn, which takes the acknowledge of nothing, in an area of either form.
    (
        [29_449, 29_463, NO, NO, NO, NO],
        [5, 2, 0, 0, 0, 0],
        Err(Damaged(29_449)),
    ),
    (
        [16_915, 29_449, 29_463, NO, NO, NO],
        [2, 5, 2, 0, 0, 0],
        Err(Damaged(29_449)),
    ),
    // The host hands in a byte, which the node takes in a turn if the area has turns; else it isn't possible.
    (
        [16_915, 29_433, 29_435, 29_449, 29_453, 29_463],
        [2, 3, 0x42, 5, 0x42, 1],
        Ok(7),
    ),
    (
        [29_433, 29_435, 29_449, 29_453, 29_463, NO],
        [3, 0x42, 5, 0x42, 1, 0],
        Err(Damaged(29_449)),
    ),
];

#[test]
fn an_area_has_a_form(rt: HostRuntime) {
    play(&rt, rt.alloc(), grown(rt.alloc()), FIRST);
    play(&rt, rt.alloc(), kept_bytes(rt.alloc(), 5), SECOND);
}

/// A turn: the node takes the acknowledge and makes 16 steps.
const TURN: &[u8] = &[5, 0, 16, 0, 0, 0, 0, 0, 2, 0, 0, 0, 0, 0, 2, 0];

/// What makes of the four entries three, the last of them; what puts it before the run; and what puts one without steps there.
const A_TURN: &[(usize, &[u8])] = &[(13_035, &[3]), (13_081, TURN), (13_097, &[0])];

const A_TURN_AND_A_RUN: &[(usize, &[u8])] = &[(13_081, TURN)];

const AN_IDLE_TURN_AND_A_RUN: &[(usize, &[u8])] = &[(
    13_081,
    &[5, 0, 0, 0, 0, 0, 0, 0, 2, 0, 0, 0, 0, 0, 2, 0],
)];

const NONE: Result<u64, OpenFault> = Err(Damaged(13_081));

/// What is in place of the turn, and what an area with turns says then. One without any says each time that it is damaged there.
const TURNS: &[([u8; 16], Result<u64, OpenFault>)] = &[
    ([5, 0, 16, 0, 0, 0, 0, 0, 2, 0, 0, 0, 0, 0, 2, 0], Ok(3)),
    // no step, the most that there may be, and one more
    ([5, 0, 0, 0, 0, 0, 0, 0, 2, 0, 0, 0, 0, 0, 2, 0], Ok(3)),
    ([5, 0, 0, 16, 0, 0, 0, 0, 2, 0, 0, 0, 0, 0, 2, 0], Ok(3)),
    ([5, 0, 1, 16, 0, 0, 0, 0, 2, 0, 0, 0, 0, 0, 2, 0], NONE),
    // nothing is taken
    ([5, 0, 16, 0, 0, 0, 0, 0, 2, 0, 0, 0, 0, 0, 0, 0], NONE),
    // parts of 5, 6 and 7: on the link that has the acknowledge, on another one beside it, and on the last one
    ([5, 0, 16, 0, 0, 0, 0, 0, 2, 0, 0, 0, 0, 0, 5, 0], NONE),
    ([5, 0, 16, 0, 0, 0, 0, 0, 2, 0, 0, 0, 0, 0, 6, 0], NONE),
    ([5, 0, 16, 0, 0, 0, 0, 0, 2, 0, 0, 0, 0, 0, 7, 0], NONE),
    ([5, 0, 16, 0, 0, 0, 0, 0, 2, 0, 0, 0, 0, 0, 0x2A, 0], NONE),
    ([5, 0, 16, 0, 0, 0, 0, 0, 2, 0, 0, 0, 0, 0, 2, 10], NONE),
    ([5, 0, 16, 0, 0, 0, 0, 0, 2, 0, 0, 0, 0, 0, 2, 12], NONE),
    ([5, 0, 16, 0, 0, 0, 0, 0, 2, 0, 0, 0, 0, 0, 2, 14], NONE),
    // bits 12 to 15
    ([5, 0, 16, 0, 0, 0, 0, 0, 2, 0, 0, 0, 0, 0, 2, 0x10], NONE),
    ([5, 0, 16, 0, 0, 0, 0, 0, 2, 0, 0, 0, 0, 0, 2, 0x20], NONE),
    ([5, 0, 16, 0, 0, 0, 0, 0, 2, 0, 0, 0, 0, 0, 2, 0x40], NONE),
    ([5, 0, 16, 0, 0, 0, 0, 0, 2, 0, 0, 0, 0, 0, 2, 0x80], NONE),
    // a data byte of a link that gave no data
    ([5, 0, 16, 0, 1, 0, 0, 0, 2, 0, 0, 0, 0, 0, 2, 0], NONE),
    ([5, 0, 16, 0, 0, 0, 0, 1, 2, 0, 0, 0, 0, 0, 2, 0], NONE),
    // data in place of the acknowledge, beside it, and what another link, another node and one that doesn't exist take
    ([5, 0, 16, 0, 0x41, 0, 0, 0, 2, 0, 0, 0, 0, 0, 1, 0], NONE),
    ([5, 0, 16, 0, 0x41, 0, 0, 0, 2, 0, 0, 0, 0, 0, 4, 0], NONE),
    ([5, 0, 16, 0, 0, 0, 0, 0, 2, 0, 0, 0, 0, 0, 16, 0], NONE),
    ([5, 1, 16, 0, 0, 0, 0, 0, 2, 0, 0, 0, 0, 0, 2, 0], NONE),
    ([5, 64, 16, 0, 0, 0, 0, 0, 2, 0, 0, 0, 0, 0, 2, 0], NONE),
];

/// The device with that turn, the last of three entries.
fn turned(alloc: Global, device: Option<Vec<u8>>) -> Option<Vec<u8>> {
    match device {
        Some(device) => with_pieces(alloc, &device, A_TURN),
        None => None,
    }
}

/// Whether a device says this if these bytes are in place of the turn.
fn is_row<R: Threads + Sync>(
    rt: &R,
    alloc: Global,
    device: &Option<Vec<u8>>,
    row: &[u8; 16],
    says: Result<u64, OpenFault>,
) -> bool {
    let Some(device) = device else {
        return false;
    };
    match with_pieces(alloc, device, &[(13_081, row.as_slice())]) {
        Some(bytes) => is_said(rt, alloc, &bytes, says),
        None => false,
    }
}

/// Plays the table over an area of each form.
fn play_rows<R: Threads + Sync + Abort>(
    rt: &R,
    alloc: Global,
    turns: &Option<Vec<u8>>,
    plain: &Option<Vec<u8>>,
) {
    for (i, (row, says)) in TURNS.iter().enumerate() {
        let told = is_row(rt, alloc, turns, row, *says) && is_row(rt, alloc, plain, row, NONE);
        assert!(rt; told, "row {i}");
    }
}

#[test]
fn one_form_has_turns(rt: HostRuntime) {
    let turns = turned(rt.alloc(), grown(rt.alloc()));
    let plain = turned(rt.alloc(), kept_bytes(rt.alloc(), 1));
    play_rows(&rt, rt.alloc(), &turns, &plain);
}

/// Pieces over the device of one node, the next number then, and the entries that lead there: the turn leads where its take and its run lead; with a
/// run after it; and without steps, with that run.
type Row = (&'static [(usize, &'static [u8])], u64, &'static [u8]);

const ROWS: &[Row] = &[
    (A_TURN, 3, b"rako"),
    (A_TURN_AND_A_RUN, 4, b"rakoo"),
    (AN_IDLE_TURN_AND_A_RUN, 4, b"rako"),
];

/// Whether pieces over the device lead where entries do.
fn leads(alloc: Global, row: &Row) -> bool {
    let (pieces, next, entries) = *row;
    let Some(grown) = grown(alloc) else {
        return false;
    };
    let Some(bytes) = with_pieces(alloc, &grown, pieces) else {
        return false;
    };
    match fresh(alloc, AREA) {
        Some(first) => leads_from(alloc, &bytes, next, &first, entries),
        None => false,
    }
}

#[test]
fn a_turn_leads_where_its_entries_lead(rt: HostRuntime) {
    for (i, row) in ROWS.iter().enumerate() {
        assert!(rt; leads(rt.alloc(), row), "row {i}");
    }
}
