//! What the script journals, over a device whose areas have turns, and over one whose first area has none.

use crate::acts::{run, turn};
use crate::desk::Done;
use crate::fresh::fresh;
use crate::remains::{kept, recovered, untold};
use crate::stops::is_last;
use crate::stories::SCRIPT;
use std::alloc::Global;
use std::sync::Wait;
use std::test::Fail;
use tp_model::{Entry, Received, Token};

/// A byte of the input.
fn input(byte: u8) -> Entry {
    Entry::HostIn { port: 0, byte }
}

/// A token that is taken alone.
fn take(line: u16, token: Token) -> Entry {
    Entry::Take { line, token }
}

/// Whether the script journals this over a device, and the device then is what the script leaves.
fn is_journalled<R: Wait>(
    rt: &R,
    alloc: Global,
    first: &[u8],
    journal: &[Entry],
) -> Result<bool, Fail> {
    let left = run(rt, alloc, &SCRIPT, first, None, untold(alloc))?;
    let next = journal.len() as u64;
    let is_so = left.done == Done::All
        && left.told.mark == next
        && left.told.journal.as_slice() == journal;
    Ok(is_so && is_last(alloc, &left.bytes, next)? && recovered(alloc, first, &left)? == Some(next))
}

/// Over a device whose areas have turns, the node takes a byte, which it holds, and makes three steps. It sends a letter, which the host takes; it
/// takes the acknowledge, and loops, in its next turns too. Over one whose first area has none, each take is an entry.
#[test]
fn a_script_journals_what_it_does(rt: HostRuntime) -> Result<(), Fail> {
    let alloc = rt.alloc();
    let round = Entry::Run { node: 0, count: 9 };
    let letter = take(0, Token::Data(0x41));
    let whole = [
        input(b'a'),
        input(b'b'),
        turn(0, Received::JustData(b'a'), 3),
        letter,
        turn(0, Received::JustAck, 9),
        round,
        input(b'c'),
        round,
    ];
    let plain = [
        input(b'a'),
        input(b'b'),
        take(4, Token::Data(b'a')),
        Entry::Run { node: 0, count: 3 },
        letter,
        take(4, Token::Ack),
        round,
        round,
        input(b'c'),
        round,
    ];
    assert!(rt; is_journalled(&rt, alloc, &fresh(alloc)?, &whole)?);
    assert!(rt; is_journalled(&rt, alloc, &kept(alloc)?, &plain)?);
    Ok(())
}
