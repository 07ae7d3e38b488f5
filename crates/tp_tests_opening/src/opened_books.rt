//! Books of devices that were formatted and opened: one node of four pages, whose link 0 is wired to a port.

ghost use Rattle.std.specs.Prelude.{IfSome};
ghost use Rattle.tp_book.specs.Opened.{IsWellOpen};
ghost use Rattle.tp_tests_opening.specs.Usable.{IsUsable};

use crate::calls::{hand_in, is_shown};
use crate::devices::{fresh, opened_of};
use std::alloc::Global;
use tp_book::{Book, NetState, Refusal};
use tp_disk::MemDisk;
use tp_model::Form;
use tp_recover::open;
use tp_tests_fixtures::{AREA, GROUPS, letter, place};

/// How many bytes groups may fill: those of an area less the 12,508 of its cut image and the 14 beside it.
pub(crate) const ROOM: u64 = 3_862;

/// A group of the four entries of the node's first turns and the host's: a run of 3 steps, the letter, its acknowledge,
/// and a run of 16 steps.
const GROUP: &[u8] = &[
    0xA5, 0, 4, 0, 0, 0, 0, 0, 0, 0, 0, 0, 0, 0, 0, 0, // the header
    1, 0, 3, 0, 0, 0, 0, 0, 0, 0, 0, 0, 0, 0, 0, 0, //
    2, 1, 0, 0, 0x41, 0, 0, 0, 1, 0, 0, 0, 0, 0, 0, 0, //
    2, 2, 4, 0, 0, 0, 0, 0, 2, 0, 0, 0, 0, 0, 0, 0, //
    1, 0, 16, 0, 0, 0, 0, 0, 3, 0, 0, 0, 0, 0, 0, 0, //
    0,
];

/// The bytes of the device with that group.
pub(crate) fn grown(alloc: Global) -> Option<Vec<u8>> {
    let Some(mut bytes) = fresh(alloc, AREA) else {
        return None;
    };
    place(&mut bytes, GROUPS, GROUP);
    Some(bytes)
}

/// What a device of `bytes` opens as.
fn state_of(alloc: Global, bytes: Vec<u8>) -> Option<NetState>
    ensures { IfSome result (λ state. IsWellOpen state) }
{
    let mut disk = MemDisk::of_bytes(bytes);
    let Ok(opened) = open(alloc, &mut disk) else {
        return None;
    };
    match opened.into_state(alloc) {
        Ok(state) => Some(state),
        Err(_) => None,
    }
}

/// The book of an opened device, if groups may fill `room` bytes.
fn book_in(alloc: Global, state: &NetState, room: u64) -> Option<Book>
    requires { IsWellOpen state.now }
    ensures { IfSome result (λ book. IsUsable book) }
{
    let Ok(book) = Book::open(alloc, state, Some(room)) else {
        return None;
    };
    if book.ports() == 0 {
        return None;
    }
    Some(book)
}

/// The book of a device of `bytes`, if groups may fill `room` bytes.
pub(crate) fn book_of(alloc: Global, bytes: Vec<u8>, room: u64) -> Option<Book>
    ensures { IfSome result (λ book. IsUsable book) }
{
    match state_of(alloc, bytes) {
        Some(state) => book_in(alloc, &state, room),
        None => None,
    }
}

/// Whether a device that was just formatted leaves no entry, and the image that it was formatted with.
fn is_fresh(state: &NetState, image: &[u8]) -> bool {
    let is_image = match state.net.images.as_slice() {
        [found] => found.as_slice() == image,
        _ => false,
    };
    is_image
        && (state.base, state.next, state.generation) == (0, 0, 1)
        && state.form == Form::Turns
        && state.kept.is_empty()
        && state.area == Some(AREA)
        && state.open_area == 0
}

/// Whether the device that was just formatted leaves that.
fn leaves_nothing(alloc: Global) -> bool {
    let Ok(image) = letter(alloc) else {
        return false;
    };
    let Some(bytes) = fresh(alloc, AREA) else {
        return false;
    };
    match state_of(alloc, bytes) {
        Some(state) => is_fresh(&state, &image),
        None => false,
    }
}

#[test]
fn a_fresh_device_has_nothing_kept(rt: HostRuntime) {
    assert!(rt; leaves_nothing(rt.alloc()));
}

/// What a book says: its nodes and ports, the next number, how many bytes port 0 has accepted, and the room it has left.
fn says(book: &Book) -> (usize, usize, u64, u64, usize)
    requires { IsUsable book.now }
{
    (
        book.nodes(),
        book.ports(),
        book.next(),
        book.accepted(0),
        book.room(0),
    )
}

/// Whether just `most` bytes find room in a book's journal, one after another.
fn takes(book: &mut Book, most: u64) -> bool
    requires { IsUsable book.old }
    ensures { IsUsable book.new }
{
    for number in 0..most {
        if hand_in(book, b"x") != Ok(number.saturating_add(1)) {
            return false;
        }
    }
    hand_in(book, b"x") == Err(Refusal::JournalFull) && hand_in(book, b"") == Ok(most)
}

/// A device with one port: its nodes, how many bytes groups may fill, and for how many bytes of the host there is room.
pub(crate) struct Filling {
    pub(crate) nodes: usize,
    pub(crate) room: u64,
    pub(crate) most: u64,
}

/// Whether a book takes as many bytes as there is room for.
fn is_filled(book: &mut Book, filling: &Filling) -> bool
    requires { IsUsable book.old }
{
    let (nodes, most) = (filling.nodes, filling.most);
    says(book) == (nodes, 1, 0, 0, 4096)
        && takes(book, most)
        && says(book)
            == (
                nodes,
                1,
                most,
                most,
                4096usize.saturating_sub(most as usize),
            )
}

/// Whether the book of a device of `bytes` does.
pub(crate) fn fills(alloc: Global, bytes: Option<Vec<u8>>, filling: &Filling) -> bool {
    let Some(bytes) = bytes else {
        return false;
    };
    match book_of(alloc, bytes, filling.room) {
        Some(mut book) => is_filled(&mut book, filling),
        None => false,
    }
}

/// Whether groups may fill `room` bytes in an area of the device with `bytes`.
pub(crate) fn has_room(alloc: Global, bytes: &[u8], room: u64) -> bool {
    match opened_of(alloc, bytes) {
        Ok(opened) => opened.journal_room() == room,
        Err(_) => false,
    }
}

const ONE_NODE: Filling = Filling {
    nodes: 1,
    room: ROOM,
    most: 105,
};

/// Five lines keep 480 bytes for a snapshot, and each entry takes at most 32: so 105 find room in 3,862, and no 106th.
#[test]
fn the_journal_of_a_device_fills(rt: HostRuntime) {
    assert!(rt; fills(rt.alloc(), fresh(rt.alloc(), AREA), &ONE_NODE));
}

/// Whether the outputs of the kept entries are shown from 0 on, whatever the mark is.
fn are_shown(book: &Book) -> bool
    requires { IsUsable book.now }
{
    for mark in 0..6u64 {
        if !is_shown(book, mark, 0, b"A") {
            return false;
        }
    }
    true
}

/// Whether the outputs of the kept entries are shown whatever the mark is, and the book goes on after those entries.
fn goes_on(book: &mut Book) -> bool
    requires { IsUsable book.old }
{
    book.base() == 0
        && says(book) == (1, 1, 4, 0, 4096)
        && book.out_base(0) == 0
        && book.outputs(0) == b"A".as_slice()
        && are_shown(book)
        && hand_in(book, b"x") == Ok(5)
}

/// Whether the book of a state that keeps four entries does so.
fn keeps_four(alloc: Global, state: &NetState) -> bool
    requires { IsWellOpen state.now }
{
    match book_in(alloc, state, ROOM) {
        Some(mut book) => state.kept.len() == 4 && goes_on(&mut book),
        None => false,
    }
}

/// Whether the device with that group leaves such a state.
fn leaves_four(alloc: Global) -> bool {
    let Some(bytes) = grown(alloc) else {
        return false;
    };
    match state_of(alloc, bytes) {
        Some(state) => keeps_four(alloc, &state),
        None => false,
    }
}

#[test]
fn kept_entries_are_in_the_book(rt: HostRuntime) {
    assert!(rt; leaves_four(rt.alloc()));
}
