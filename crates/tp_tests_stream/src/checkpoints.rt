//! Runs with checkpoints.

use crate::devices::{PASSES, RING, RING_OF_NINE, WIDE_RING, formatted_from};
use crate::players::Left;
use crate::runs::{FOUR, left, letter, run_and_look, run_on, run_twice};
use std::alloc::Global;
use std::process::Abort;
use std::sync::Wait;
use std::test::Fail;
use std::thread::Threads;
use tp_disk::MemDisk;
use tp_model::Form;
use tp_run::{Job, RunFault};
use tp_tests_fixtures::KEPT;

/// Two hundred turns of a worker. Each twentieth entry since the kept cut begins a snapshot.
const OFTEN: Job = Job {
    turns: 200,
    every: Some(20),
    ..FOUR
};

/// The number that a run reached, if it is above the one before.
fn further(before: Option<u64>, done: Result<u64, RunFault>) -> Option<u64> {
    match (before, done) {
        (Some(before), Ok(reached)) if reached > before => Some(reached),
        _ => None,
    }
}

/// Eight runs one after the other. Answers the number that the last one reached, if each reached more than the one before.
fn reach<R: Threads + Wait + Abort + Sync>(
    rt: &R,
    alloc: Global,
    disk: &mut MemDisk,
    out: &mut Vec<u8>,
) -> Option<u64> {
    let mut next = Some(0);
    for _ in 0..8 {
        let done = run_on(rt, alloc, OFTEN, disk, b"", out);
        next = further(next, done);
    }
    next
}

/// Whether the number that was reached is the next one, and above 210, and the areas were switched four times and have turns; and just
/// `printed` was printed.
fn is_reached<R: Threads + Wait + Abort + Sync>(
    rt: &R,
    alloc: Global,
    disk: &mut MemDisk,
    out: &mut Vec<u8>,
    printed: &[u8],
) -> Result<bool, Fail> {
    let next = reach(rt, alloc, disk, out);
    let left = left(alloc, disk)?;
    let is_reached = next == Some(left.next) && left.next > 210;
    let is_switched = left.base > 0 && left.generation > 4 && left.form == Form::Turns;
    Ok(is_reached && is_switched && out.as_slice() == printed)
}

/// Whether that number is reached over a device that is handed in.
fn reaches<R: Threads + Wait + Abort + Sync>(
    rt: &R,
    alloc: Global,
    disk: MemDisk,
    printed: &[u8],
) -> Result<bool, Fail> {
    let mut disk = disk;
    let mut out = Vec::new(alloc);
    let told = is_reached(rt, alloc, &mut disk, &mut out, printed);
    told
}

/// The journal has room for 105 entries. With checkpoints a network that never ends still goes on, and its letter is printed
/// once.
#[test]
fn a_short_journal_never_stays_full(rt: HostRuntime) -> Result<(), Fail> {
    let alloc = rt.alloc();
    let told = reaches(&rt, alloc, letter(alloc)?, b"A")?;
    assert!(rt; told);
    Ok(())
}

/// What runs of each kept device print: the letter, if it wasn't confirmed yet.
const PRINTED: [&[u8]; 6] = [b"A", b"A", b"", b"", b"", b""];

/// Devices that were kept from before areas had forms go on, and their checkpoints leave areas with turns.
#[test]
fn kept_devices_go_on(rt: HostRuntime) -> Result<(), Fail> {
    let alloc = rt.alloc();
    for (i, (kept, printed)) in KEPT.iter().zip(&PRINTED).enumerate() {
        let told = reaches(&rt, alloc, MemDisk::of_bytes(kept.bytes(alloc)?), printed)?;
        assert!(rt; told, "device {i}");
    }
    Ok(())
}

/// As many bytes of input as the journal has room for entries.
const ALL: &[u8] = &[7; 105];

/// Four turns, in which no snapshot begins; and forty, in which one begins soon.
const NEVER: Job = Job {
    every: Some(1000),
    ..FOUR
};

const SOON: Job = Job {
    turns: 40,
    every: Some(20),
    ..FOUR
};

/// Whether the journal is full after the first run, which prints nothing, and isn't after the second; and a third one prints the letter.
fn is_ended<R: Threads + Wait + Abort + Sync>(
    rt: &R,
    alloc: Global,
    disk: &mut MemDisk,
    out: &mut Vec<u8>,
) -> Result<bool, Fail> {
    let full = run_and_look(rt, alloc, NEVER, disk, ALL, out)?;
    let is_full = full.done == Ok(105) && full.left.next == 105 && full.left.base == 0;
    let freed = run_and_look(rt, alloc, SOON, disk, ALL, out)?;
    let is_freed = freed.is_done() && freed.left.base >= 105 && freed.is_switched(1);
    let done = run_on(rt, alloc, SOON, disk, ALL, out);
    let is_printed = done.is_ok() && out.as_slice() == b"A".as_slice();
    Ok(is_full && full.printed == 0 && is_freed && is_printed)
}

/// Whether half of the journal begins a snapshot if nothing else is asked for: forty turns leave less, and two hundred more.
fn is_half<R: Threads + Wait + Abort + Sync>(
    rt: &R,
    alloc: Global,
    disk: &mut MemDisk,
    out: &mut Vec<u8>,
) -> Result<bool, Fail> {
    let few = Job { turns: 40, ..FOUR };
    let more = Job { turns: 200, ..FOUR };
    let [early, late] = run_twice(rt, alloc, [few, more], disk, out)?;
    let is_early = early.done.is_ok() && early.left.base == 0;
    Ok(is_early && late.done.is_ok() && late.is_switched(1))
}

/// A run of 105 bytes of input leaves a full journal, which stays full as long as no snapshot begins. One that begins then takes what it needs from
/// what is kept for it, so that it ends, at the latest with the run's last flush; and the network goes on.
#[test]
fn a_full_journal_is_ended_by_a_snapshot(rt: HostRuntime) -> Result<(), Fail> {
    let alloc = rt.alloc();
    let mut disk = letter(alloc)?;
    let mut out = Vec::new(alloc);
    let told = is_ended(&rt, alloc, &mut disk, &mut out)?;
    assert!(rt; told);
    Ok(())
}

/// Half of the journal begins a snapshot if nothing else is asked for.
#[test]
fn half_of_the_journal_begins_a_snapshot(rt: HostRuntime) -> Result<(), Fail> {
    let alloc = rt.alloc();
    let mut disk = letter(alloc)?;
    let mut out = Vec::new(alloc);
    let told = is_half(&rt, alloc, &mut disk, &mut out)?;
    assert!(rt; told);
    Ok(())
}

/// How often a ring is run, at most, until its areas are switched: on a busy machine the flusher's thread may be given no time while all
/// turns are made.
const RUNS: u32 = 500;

/// Runs of a job one after the other until the areas were switched more often than `times`. Answers what the last run left, if they
/// were switched, each run ended well and each led further than `next` and the ones before.
fn switched<R: Threads + Wait + Abort + Sync>(
    rt: &R,
    alloc: Global,
    job: Job,
    disk: &mut MemDisk,
    out: &mut Vec<u8>,
    times: u64,
    next: u64,
) -> Result<Option<Left>, Fail> {
    let mut before = next;
    for _ in 0..RUNS {
        let look = run_and_look(rt, alloc, job, disk, b"", out)?;
        if !look.is_done() || look.left.next <= before {
            return Ok(None);
        }
        if look.is_switched(times) {
            return Ok(Some(look.left));
        }
        before = look.left.next;
    }
    Ok(None)
}

/// Whether runs switch the areas, and further ones go on from where these ended, and switch them again.
fn is_switched_twice<R: Threads + Wait + Abort + Sync>(
    rt: &R,
    alloc: Global,
    job: Job,
    disk: &mut MemDisk,
    out: &mut Vec<u8>,
) -> Result<bool, Fail> {
    let Some(first) = switched(rt, alloc, job, disk, out, 1, 0)? else {
        return Ok(false);
    };
    let second = switched(rt, alloc, job, disk, out, first.generation, first.next)?;
    Ok(second.is_some())
}

/// Whether runs in a ring that is freshly formatted switch the areas twice.
fn goes_on<R: Threads + Wait + Abort + Sync>(
    rt: &R,
    alloc: Global,
    ring: &[u8],
    job: Job,
) -> Result<bool, Fail> {
    let mut disk = MemDisk::of_bytes(formatted_from(alloc, ring, PASSES, 6, 1_048_576)?);
    let mut out = Vec::new(alloc);
    let told = is_switched_twice(rt, alloc, job, &mut disk, &mut out);
    told
}

/// The ring, how many workers there are, and how many turns. Workers beyond the nodes and ports use turns up that find no process.
const TEAMS: &[(&[u8], u8, u32)] = &[
    (RING, 1, 2000),
    (RING, 2, 2000),
    (RING, 16, 100_000),
    (RING_OF_NINE, 2, 2000),
    (WIDE_RING, 2, 4000),
];

/// Nodes in a ring, whose areas are switched while they run.
#[test]
fn a_ring_goes_on_over_its_checkpoints(rt: HostRuntime) -> Result<(), Fail> {
    for (ring, workers, turns) in TEAMS {
        let job = Job {
            turns: *turns,
            workers: *workers,
            every: Some(20),
            ..FOUR
        };
        let told = goes_on(&rt, rt.alloc(), ring, job)?;
        assert!(rt; told, "{workers} workers");
    }
    Ok(())
}
