//! What is kept of a device for finishing a snapshot: the takes that a running one needs go on after the last entry that anyone
//! may make.

ghost use Rattle.std.specs.Prelude.{◌≡◌, ◌<◌, length, true};
ghost use Rattle.tp_book.specs.Marked.{taker_of};
ghost use Rattle.tp_tests_opening.specs.Usable.{IsUsable};

use crate::calls::hand_in;
use crate::devices::fresh;
use crate::opened_books::{ROOM, book_of};
use std::alloc::Global;
use tp_book::Refusal::{JournalFull, NothingToTake, SnapshotRunning, StoreBroken};
use tp_book::{Book, Refusal};
use tp_model::WireEnd;
use tp_tests_fixtures::{AREA, GROUPS, place};

/// The place of the first area's generation on the device.
const GENERATION: usize = 513;

/// The bytes of the last generation.
const LAST_GENERATION: &[u8] = &[0xFF, 0xFF, 0xFF, 0xFF, 0xFF, 0xFF, 0, 0];

/// A call on the book. A take that was made ready is given back.
#[derive(Clone, Copy)]
enum Call {
    HandIn,
    ReadyTake(u16),
    HostTake(u16),
    Begin,
    Record,
    Close(u16),
    Break,
}

/// A call; its answer, and `None` if it may not be made; and then the next number.
type Row = (Call, Option<Result<(), Refusal>>, u64);

/// How many entries the device has, whether the node took the host's first byte, and calls one after another.
type Story<'a> = (u8, bool, &'a [Row]);

const DONE: Option<Result<(), Refusal>> = Some(Ok(()));

const FULL: Option<Result<(), Refusal>> = Some(Err(JournalFull));

const NOTHING: Option<Result<(), Refusal>> = Some(Err(NothingToTake));

const BROKEN: Option<Result<(), Refusal>> = Some(Err(StoreBroken));

const STORIES: &[Story<'static>] = &[
    // Without a snapshot: the 105th entry has 3,360 bytes of at most 3,382, and the 106th would have 3,392.
    (
        104,
        false,
        &[
            (Call::Record, None, 104),
            (Call::ReadyTake(4), DONE, 104),
            (Call::HostTake(0), DONE, 105),
            (Call::ReadyTake(4), FULL, 105),
            (Call::HandIn, FULL, 105),
        ],
    ),
    // While one runs the host has recorded, and the node hasn't yet.
    (
        105,
        false,
        &[
            (Call::HostTake(0), FULL, 105),
            (Call::Begin, DONE, 105),
            (Call::Begin, Some(Err(SnapshotRunning)), 105),
            (Call::ReadyTake(4), FULL, 105),
            (Call::HandIn, FULL, 105),
            (Call::HostTake(0), DONE, 106),
            (Call::Record, DONE, 106),
            (Call::ReadyTake(4), DONE, 106),
            (Call::HandIn, FULL, 106),
        ],
    ),
    // The 120th entry has 3,840 bytes of at most 3,862, and the 121st would have 3,872.
    (
        119,
        false,
        &[
            (Call::ReadyTake(4), FULL, 119),
            (Call::Begin, DONE, 119),
            (Call::Record, DONE, 119),
            (Call::Record, None, 119),
            (Call::ReadyTake(4), DONE, 119),
            (Call::HostTake(0), DONE, 120),
            (Call::ReadyTake(4), FULL, 120),
        ],
    ),
    (
        120,
        false,
        &[
            (Call::Begin, DONE, 120),
            (Call::Record, DONE, 120),
            (Call::ReadyTake(4), FULL, 120),
            (Call::HostTake(0), FULL, 120),
        ],
    ),
    // Once the line is closed, a take from it is like any other.
    (
        118,
        true,
        &[
            (Call::Begin, DONE, 118),
            (Call::Close(4), None, 118),
            (Call::Record, DONE, 118),
            (Call::HostTake(0), DONE, 119),
            (Call::ReadyTake(4), NOTHING, 119),
            (Call::Close(4), DONE, 119),
            (Call::ReadyTake(4), FULL, 119),
        ],
    ),
    (
        103,
        true,
        &[
            (Call::Begin, DONE, 103),
            (Call::Record, DONE, 103),
            (Call::HostTake(0), DONE, 104),
            (Call::Close(4), DONE, 104),
            (Call::ReadyTake(4), DONE, 104),
            (Call::HandIn, DONE, 105),
            (Call::ReadyTake(4), FULL, 105),
        ],
    ),
    // A broken store begins none and takes nothing.
    (
        104,
        false,
        &[
            (Call::Break, None, 104),
            (Call::Begin, BROKEN, 104),
            (Call::ReadyTake(4), BROKEN, 104),
            (Call::HostTake(0), BROKEN, 104),
            (Call::HandIn, BROKEN, 104),
        ],
    ),
    // That one runs is said first.
    (
        104,
        false,
        &[
            (Call::Begin, DONE, 104),
            (Call::Break, None, 104),
            (Call::Begin, Some(Err(SnapshotRunning)), 104),
        ],
    ),
];

/// No generation is left after the last one: no snapshot begins, all else goes on. That the store is broken is said first.
const LAST: &[Row] = &[
    (Call::Begin, FULL, 104),
    (Call::HostTake(0), DONE, 105),
    (Call::Break, None, 105),
    (Call::Begin, BROKEN, 105),
];

/// An entry's bytes: the node sends its letter, and the host hands in bytes, and the node may take the first.
fn entry_bytes(number: u8, took: bool) -> [u8; 16] {
    let mut bytes = [3, 0, 0x78, 0, 0, 0, 0, 0, 0, 0, 0, 0, 0, 0, 0, 0];
    if number == 0 {
        bytes = [1, 0, 3, 0, 0, 0, 0, 0, 0, 0, 0, 0, 0, 0, 0, 0];
    }
    if took && number == 2 {
        bytes = [2, 1, 4, 0, 0x78, 0, 0, 0, 0, 0, 0, 0, 0, 0, 0, 0];
    }
    bytes[8] = number;
    bytes
}

/// The bytes of a device with `entries` entries, in groups of up to 64. The node took the first byte if `took` says so.
fn device(alloc: Global, entries: u8, took: bool) -> Option<Vec<u8>> {
    let Some(mut bytes) = fresh(alloc, AREA) else {
        return None;
    };
    for number in 0..entries {
        let at = GROUPS + 16 * (usize::from(number) + usize::from(number / 64));
        if number % 64 == 0 {
            let count = (entries - number).min(64);
            place(&mut bytes, at, &[0xA5, 0, count, 0, 0, 0, 0, 0, number]);
        }
        place(&mut bytes, at + 16, &entry_bytes(number, took));
    }
    Some(bytes)
}

/// Whether the book has a line.
fn has_line(book: &Book, line: u16) -> bool
    ensures { result ≡ true → line < length book.now.state.lines }
{
    book.known();
    usize::from(line) < 4 * book.nodes() + book.ports()
}

/// The process that receives a line.
fn taker(book: &Book, line: u16) -> usize
    requires { line < length book.now.state.lines }
    ensures { result ≡ taker_of book.now line }
{
    book.known();
    match book.receiver(line) {
        Some(WireEnd::Link(node, _)) => usize::from(node),
        Some(WireEnd::Port(_)) => book.nodes(),
        None => book.nodes(),
    }
}

fn ready_take(book: &mut Book, line: u16) -> Option<Result<(), Refusal>>
    requires { IsUsable book.old }
    ensures { IsUsable book.new }
{
    if !has_line(book, line) {
        return None;
    }
    let Some(WireEnd::Link(_node, _link)) = book.receiver(line) else {
        return None;
    };
    match book.ready_take(line) {
        Ok(_token) => {
            book.give_back(line);
            DONE
        }
        Err(refusal) => Some(Err(refusal)),
    }
}

fn host_take(book: &mut Book, line: u16) -> Option<Result<(), Refusal>>
    requires { IsUsable book.old }
    ensures { IsUsable book.new }
{
    if !has_line(book, line) {
        return None;
    }
    let Some(WireEnd::Port(_port)) = book.receiver(line) else {
        return None;
    };
    match book.host_take(line) {
        Ok(_note) => DONE,
        Err(refusal) => Some(Err(refusal)),
    }
}

fn record(book: &mut Book) -> Option<Result<(), Refusal>>
    requires { IsUsable book.old }
    ensures { IsUsable book.new }
{
    if book.nodes() == 0 || !book.asked(0) {
        return None;
    }
    book.record(0);
    DONE
}

fn close(book: &mut Book, line: u16) -> Option<Result<(), Refusal>>
    requires { IsUsable book.old }
    ensures { IsUsable book.new }
{
    if !has_line(book, line) || !book.marker_ready(line) {
        return None;
    }
    let process = taker(book, line);
    if process > book.nodes() || !book.recorded(process) {
        return None;
    }
    book.close_line(line);
    DONE
}

fn make(alloc: Global, book: &mut Book, call: Call) -> Option<Result<(), Refusal>>
    requires { IsUsable book.old }
    ensures { IsUsable book.new }
{
    match call {
        Call::HandIn => match hand_in(book, b"x") {
            Ok(_number) => DONE,
            Err(refusal) => Some(Err(refusal)),
        },
        Call::ReadyTake(line) => ready_take(book, line),
        Call::HostTake(line) => host_take(book, line),
        Call::Begin => Some(book.begin(alloc)),
        Call::Record => record(book),
        Call::Close(line) => close(book, line),
        Call::Break => {
            book.break_store();
            None
        }
    }
}

/// Whether each call answers as it ought to, one made after another.
fn are_rows(alloc: Global, book: &mut Book, rows: &[Row]) -> bool
    requires { IsUsable book.old }
{
    for row in rows {
        let (call, answer, next) = *row;
        if make(alloc, book, call) != answer || book.next() != next {
            return false;
        }
    }
    true
}

/// Whether they do so on the book of a device of `bytes`.
fn are_so(alloc: Global, bytes: Vec<u8>, rows: &[Row]) -> bool {
    match book_of(alloc, bytes, ROOM) {
        Some(mut book) => are_rows(alloc, &mut book, rows),
        None => false,
    }
}

/// Whether they do so on the book of a story's device.
fn is_so(alloc: Global, story: &Story<'_>) -> bool {
    let (entries, took, rows) = *story;
    match device(alloc, entries, took) {
        Some(bytes) => are_so(alloc, bytes, rows),
        None => false,
    }
}

/// Whether they do so on the book of a device whose open area has the last generation.
fn is_last(alloc: Global) -> bool {
    match device(alloc, 104, false) {
        Some(mut bytes) => {
            place(&mut bytes, GENERATION, LAST_GENERATION);
            are_so(alloc, bytes, LAST)
        }
        None => false,
    }
}

#[test]
fn takes_of_a_snapshot_use_what_is_kept(rt: HostRuntime) {
    for (i, story) in STORIES.iter().enumerate() {
        assert!(rt; is_so(rt.alloc(), story), "story {i}");
    }
}

#[test]
fn the_last_generation_begins_no_snapshot(rt: HostRuntime) {
    assert!(rt; is_last(rt.alloc()));
}
