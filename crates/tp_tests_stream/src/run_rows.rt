//! Runs of one worker, one after another on a device.

use crate::runs::{FOUR, crash, letter, run_on};
use std::alloc::Global;
use std::process::Abort;
use std::sync::Wait;
use std::test::Fail;
use std::thread::Threads;
use tp_disk::MemDisk;
use tp_model::{Entry, Received, Token};
use tp_recover::{Unopened, open};
use tp_run::Job;

/// What is run, with this input; what it prints, and which number it answers.
type Row = (Job, &'static [u8], &'static [u8], u64);

const NONE: Job = Job { turns: 0, ..FOUR };

/// As many turns as make an entry: in a fourth the host has nothing to do.
const THREE: Job = Job { turns: 3, ..FOUR };

/// The node sends a letter, which is printed, confirmed, and not printed again.
const PRINTS: &[Row] = &[(THREE, b"", b"A", 4), (NONE, b"", b"", 4)];

/// One input is given again and again, and grows.
const OFFERS: &[Row] = &[
    (NONE, b"ab", b"", 2),
    (NONE, b"ab", b"", 2),
    (NONE, b"a", b"", 2),
    (NONE, b"", b"", 2),
    (NONE, b"abc", b"", 3),
];

/// Input and output in one run; then more of the input.
const TAKES: &[Row] = &[(FOUR, b"ab", b"A", 6), (NONE, b"abc", b"", 7)];

/// Whether a run prints and answers what its row says.
fn is_row<R: Threads + Wait + Abort + Sync>(
    rt: &R,
    alloc: Global,
    disk: &mut MemDisk,
    row: &Row,
) -> bool {
    let (job, input, prints, answer) = *row;
    let mut out = Vec::new(alloc);
    let done = run_on(rt, alloc, job, disk, input, &mut out);
    done == Ok(answer) && out.as_slice() == prints
}

/// Whether all of them do, one after another.
fn are_rows<R: Threads + Wait + Abort + Sync>(
    rt: &R,
    alloc: Global,
    disk: &mut MemDisk,
    rows: &[Row],
) -> bool {
    for row in rows {
        if !is_row(rt, alloc, disk, row) {
            return false;
        }
    }
    true
}

/// The steps before the letter, the letter as the host takes it, and that it was printed.
const RUN_3: Entry = Entry::Run { node: 0, count: 3 };

const LETTER: Entry = Entry::Take {
    line: 0,
    token: Token::Data(0x41),
};

const CONFIRMED: Entry = Entry::Confirm { port: 0, upto: 1 };

/// A turn in which the node takes this on its link 0 and makes `count` steps.
fn turn(first: Received, count: u16) -> Entry {
    Entry::Turn {
        node: 0,
        takes: [
            first,
            Received::Nothing,
            Received::Nothing,
            Received::Nothing,
        ],
        count,
    }
}

/// Bytes of the input.
const INPUT_A: Entry = Entry::HostIn {
    port: 0,
    byte: b'a',
};

const INPUT_B: Entry = Entry::HostIn {
    port: 0,
    byte: b'b',
};

const INPUT_C: Entry = Entry::HostIn {
    port: 0,
    byte: b'c',
};

/// Whether just `entries` are kept on what a crash leaves of a device.
fn leaves(alloc: Global, disk: &mut MemDisk, entries: &[Entry]) -> Result<bool, Unopened> {
    crash(alloc, disk);
    let opened = open(alloc, disk)?;
    for (one, other) in opened.kept().iter().zip(entries) {
        if one.entry != *other {
            return Ok(false);
        }
    }
    Ok(opened.kept().len() == entries.len())
}

/// Whether runs on the device of the node that sends a letter go as their rows say, and just `entries` are kept then.
fn go<R: Threads + Wait + Abort + Sync>(
    rt: &R,
    alloc: Global,
    rows: &[Row],
    entries: &[Entry],
) -> Result<bool, Fail> {
    let mut disk = letter(alloc)?;
    let are_so = are_rows(rt, alloc, &mut disk, rows);
    let told = leaves(alloc, &mut disk, entries);
    Ok(told? && are_so)
}

#[test]
fn runs_keep_what_was_worked_out(rt: HostRuntime) -> Result<(), Fail> {
    // The entries that are kept then.
    let printed = [RUN_3, LETTER, turn(Received::JustAck, 16), CONFIRMED];
    // Input is handed in once.
    let offered = [INPUT_A, INPUT_B, INPUT_C];
    // Input is before what is done with it.
    let taken = [
        INPUT_A,
        INPUT_B,
        turn(Received::JustData(b'a'), 3),
        LETTER,
        turn(Received::JustAck, 16),
        CONFIRMED,
        INPUT_C,
    ];
    let stories: [(&[Row], &[Entry]); 3] = [
        (PRINTS, &printed),
        (OFFERS, &offered),
        (TAKES, &taken),
    ];
    for (rows, entries) in stories {
        let told = go(&rt, rt.alloc(), rows, entries)?;
        assert!(rt; told);
    }
    Ok(())
}
