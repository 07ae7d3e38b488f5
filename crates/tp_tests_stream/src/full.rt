//! A device whose journal a plain run has filled.

use crate::devices::{DEAF, LETTERS, ONE};
use crate::players::{Asked, Desk, Left, NO_INPUT, QUIET, look, play_desk};
use crate::runs::run_on;
use crate::steps::{Fresh, PLAIN, Step, are_steps_on};
use std::mem;
use std::process::Abort;
use std::sync::Wait;
use std::test::Fail;
use std::thread::Threads;
use tp_disk::MemDisk;
use tp_run::{Job, RunFault};
use tp_stream::{Ending, StreamFault, Task};

/// A node of eight pages.
const NARROW: &[u8] = b"node a 8\nport h\nwire a.0 h\n";

/// Turns of one worker, in which no snapshot begins.
const FILLS: Job = Job {
    turns: 5000,
    workers: 1,
    quantum: 64,
    spare: 4,
    every: Some(1_000_000),
    port: 0,
};

/// What a run leaves that fills a journal; `None` if it doesn't fill it, or a snapshot is there.
fn filled<R: Threads + Wait + Abort + Sync>(
    rt: &R,
    device: &mut Vec<u8>,
) -> Result<Option<Left>, Fail>
where
    R: AllocGlobal,
{
    let alloc = rt.alloc();
    let mut out = Vec::new(alloc);
    let mut disk = MemDisk::of_bytes(mem::replace(device, Vec::new(alloc)));
    let filled = run_on(rt, alloc, FILLS, &mut disk, b"", &mut out);
    *device = disk.crash();
    let full = look(alloc, device)?;
    Ok(if filled == Err(RunFault::ConfirmRefused) && full.base == 0 {
        Some(full)
    } else {
        None
    })
}

/// Whether a stream on it goes on.
fn goes_on<R: Threads + Wait + Abort + Sync>(rt: &R, desk: &mut Desk) -> Result<bool, Fail>
where
    R: AllocGlobal,
{
    let Some(full) = filled(rt, &mut desk.device)? else {
        return Ok(false);
    };
    let task = Task {
        turns: Some(3000),
        ..QUIET
    };
    let played = play_desk(rt, Asked { task, ..NO_INPUT }, desk)?;
    let next = played.next().unwrap_or(0);
    let is_further = next.saturating_sub(full.next) > 1000;
    let is_put = desk.sink.bytes().len() > 500;
    Ok(played.why() == Some(Ending::Turns) && is_further && is_put)
}

/// A stream on it settles a snapshot before it confirms, and goes on.
#[test]
fn a_journal_that_a_run_filled_lets_a_stream_go_on(rt: HostRuntime) -> Result<(), Fail> {
    let mut desk = Desk::fresh(rt.alloc(), ONE, LETTERS, 16_384)?;
    let told = goes_on(&rt, &mut desk)?;
    assert!(rt; told);
    Ok(())
}

/// A device whose empty journal has room for just what a turn and the confirms after it need.
const FULL: Fresh = Fresh {
    text: NARROW,
    code: DEAF,
    begin: 0,
    area: 17_546,
};

/// No byte of an input finds any room: that is said, long before these turns were made.
const REFUSED: Step = Step {
    asked: Asked {
        task: Task {
            turns: Some(20_000),
            ..QUIET
        },
        input: 7,
        most: 7,
        ..NO_INPUT
    },
    fault: Some(StreamFault::JournalFull),
    ..PLAIN
};

/// If no byte of an input finds any room, the stream is refused, so it doesn't go on for ever. Without a byte it ends.
#[test]
fn input_that_finds_no_room_is_refused(rt: HostRuntime) -> Result<(), Fail> {
    for step in [PLAIN, REFUSED] {
        assert!(rt; are_steps_on(&rt, FULL, &[step])?);
    }
    Ok(())
}
