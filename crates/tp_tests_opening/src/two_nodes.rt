//! Two nodes, link 0 of each wired to the other's, and link 3 of the first to a port. The first sends one byte, and a snapshot
//! begins while it is under way.

use crate::drawn::tasks_device;
use crate::machines::Task;
use crate::network::Net;
use crate::replayed::{Flat, both_of, take_in};
use crate::turn_stories::{Entries, Step, Steps, are_numbered, first_other};
use std::alloc::Global;
use std::test::Fail;
use tp_book::{Book, PortParts};
use tp_model::{Entry, Token};
use tp_net::Lines;

const TEXT: &[u8] = b"node a 4\nnode b 4\nport h\nwire a.0 b.0\nwire a.3 h\n";

const DAY: Steps = [
    Some((Step::Node(0, 16), 0, 1, None, None)),
    Some((Step::Begin, 0, 1, Some(8), None)),
    Some((Step::Node(1, 16), 1, 2, Some(4), Some(8))),
    Some((Step::Node(0, 16), 0, 2, Some(0), Some(3))),
    Some((Step::Node(1, 16), 0, 2, Some(3), None)),
    Some((Step::Host, 0, 2, None, None)),
];

/// What the first node does, and what the second one takes.
const ENTRIES: Entries = [
    Some((0, Entry::Run { node: 0, count: 5 })),
    Some((
        1,
        Entry::Take {
            line: 0,
            token: Token::Data(0x58),
        },
    )),
    None,
    None,
];

/// How many lines there are.
const LINES: usize = 9;

/// What is in a whole cut: the entries of each process and in all, the one token on each line that has one, and the port's pending bytes (nothing
/// else having come to it); then the entries outside, the next number, and the port's outputs.
#[derive(Clone, Copy)]
struct Whole<'a> {
    counts: [u64; 3],
    size: u64,
    lines: [Option<Token>; LINES],
    pending: &'a [u8],
    tail: Entries,
    next: u64,
    outputs: &'a [u8],
}

/// The cut of a byte under way: the first node is in it after its run, the second one before all, and takes the byte outside.
const BYTE_UNDER_WAY: Whole<'static> = Whole {
    counts: [1, 0, 0],
    size: 1,
    lines: [
        Some(Token::Data(0x58)),
        None,
        None,
        None,
        None,
        None,
        None,
        None,
        None,
    ],
    pending: b"",
    tail: [
        Some((
            1,
            Entry::Take {
                line: 0,
                token: Token::Data(0x58),
            },
        )),
        None,
        None,
        None,
    ],
    next: 2,
    outputs: b"",
};

/// Whether just these tokens are on lines, one at most on each.
fn are_lines(lines: &Lines, tokens: &[Option<Token>; LINES]) -> bool {
    for line in 0..LINES {
        let count = usize::from(tokens[line].is_some());
        let there = line < lines.count() && lines.len(line) == count;
        if !there || lines.get(line, 0) != tokens[line] {
            return false;
        }
    }
    lines.count() == LINES
}

/// Whether a port has the bytes `pending`, and nothing else came to it.
fn is_port(port: &PortParts, pending: &[u8]) -> bool {
    port.pending.as_slice() == pending
        && port.outputs.is_empty()
        && port.in_base == 0
        && port.out_base == 0
}

/// Whether a book's whole cut and the tail are these.
fn is_whole(alloc: Global, book: &Book, wanted: &Whole) -> bool {
    let Some(cut) = book.whole() else {
        return false;
    };
    let Ok(tail) = book.tail(alloc) else {
        return false;
    };
    let outside = are_numbered(tail.entries(), &wanted.tail) && tail.upto() == wanted.next;
    let counts = cut.counts() == wanted.counts.as_slice() && cut.size() == wanted.size;
    let ports = match cut.ports() {
        [port] => is_port(port, wanted.pending),
        _ => false,
    };
    outside && counts && ports && are_lines(cut.lines(), &wanted.lines)
}

/// Whether a book went on from the cut.
fn is_trimmed(book: &Book, cut: &Whole) -> bool {
    book.base() == cut.size
        && book.next() == cut.next
        && book.generation() == 2
        && are_numbered(book.entries(), &cut.tail)
        && book.whole().is_none()
        && book.ports() == 1
        && book.outputs(0) == cut.outputs
}

/// Whether the second node has the byte, and the first one waits.
fn is_held(net: &Net) -> bool {
    match net.nodes() {
        [first, second] => second.holds(0) && !first.holds(0) && first.waits(0),
        _ => false,
    }
}

/// Whether each step is as it was told, the cut is whole then, and the network goes on from it.
fn is_day(alloc: Global, net: &mut Net, flat: &mut Flat) -> bool {
    let (cut, entries) = (BYTE_UNDER_WAY, ENTRIES);
    let told = first_other(alloc, net, &DAY).is_none();
    let entries = are_numbered(net.book().entries(), &entries);
    if !told || !entries || !is_whole(alloc, net.book(), &cut) {
        return false;
    }
    let tokens = take_in(alloc, net, flat);
    tokens == Some(1) && is_held(net) && is_trimmed(net.book(), &cut)
}

#[test]
fn a_byte_under_way_is_in_the_cut(rt: HostRuntime) -> Result<(), Fail> {
    let tasks: [&[Task]; 2] = [&[Task::Once(0)], &[]];
    let made = tasks_device(rt.alloc(), TEXT, &tasks);
    let (mut net, mut flat) = both_of(rt.alloc(), made, 4)?;
    let told = is_day(rt.alloc(), &mut net, &mut flat);
    assert!(rt; told);
    Ok(())
}
