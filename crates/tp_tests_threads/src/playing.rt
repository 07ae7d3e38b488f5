//! Stories are played, on a device of their own each, while memory runs out once at most.

use crate::acts::{Story, turn};
use crate::stories::{CALLS, FULL, NO_FRAME, NOTHING_WRITTEN, ONE_FRAME};
use crate::worked::{Wanted, goes};
use crate::worked_stories::Device;
use std::alloc::Global;
use std::sync::Wait;
use tp_model::{Entry, Received, Token};

/// Whether a story goes as it should, and a crash leaves the second area, with `base` entries in its cut beside those that are offered first, and
/// exactly the entries of `kept` after it.
fn plays<R: Wait>(rt: &R, alloc: Global, story: &Story<'_>, base: u64, kept: &[Entry]) -> bool {
    let base = base.wrapping_add(story.offered.len() as u64);
    let device = Device {
        second: true,
        generation: 2,
        base,
        next: base.wrapping_add(kept.len() as u64),
        bytes: &[],
        words: &[],
    };
    let wanted = Wanted::Worked(&device, kept);
    match goes(rt, alloc, story, &wanted) {
        Ok(told) => told,
        Err(_) => matches!(goes(rt, alloc, story, &wanted), Ok(true)),
    }
}

const LETTER: Entry = Entry::Take {
    line: 0,
    token: Token::Data(b'A'),
};

/// A run of the node.
fn run(count: u16) -> Entry {
    Entry::Run { node: 0, count }
}

#[test]
fn small_pools_and_a_full_journal(rt: HostRuntime) {
    let ack = turn(0, Received::JustAck, 16);
    let rows: [(&Story<'static>, u64, &[Entry]); 4] = [
        (&NOTHING_WRITTEN, 2, &[ack, run(16)]),
        (&NO_FRAME, 0, &[run(2), run(1), LETTER, ack]),
        (&ONE_FRAME, 0, &[run(3), LETTER, ack]),
        (&FULL, 0, &[turn(0, Received::JustData(7), 0), run(3)]),
    ];
    for (i, (story, base, kept)) in rows.iter().enumerate() {
        assert!(rt; plays(&rt, rt.alloc(), story, *base, kept), "story {i}");
    }
}

/// With one byte the node's second turn runs out of memory for its entry; with two the confirm; with three the host's take; with four the node's
/// first turn.
const OFFERED: &[&[u8]] = &[b"1", b"12", b"123", b"1234"];

#[test]
fn each_call_is_made_again(rt: HostRuntime) {
    for (i, offered) in OFFERED.iter().enumerate() {
        let story = Story {
            offered: *offered,
            ..CALLS
        };
        assert!(rt; plays(&rt, rt.alloc(), &story, 4, &[run(16)]), "story {i}");
    }
}
