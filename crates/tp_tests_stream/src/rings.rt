//! Eight nodes in a ring, and sixty-four, with workers in threads.

use crate::devices::{PASSES, RING, WIDE_RING, formatted_from};
use crate::runs::{FOUR, run_twice};
use std::alloc::Global;
use std::process::Abort;
use std::sync::Wait;
use std::test::Fail;
use std::thread::Threads;
use tp_disk::MemDisk;
use tp_run::Job;

/// In which ring how many workers make how many turns.
const TEAMS: &[(&[u8], u8, u32)] = &[
    (RING, 1, 4000),
    (RING, 2, 4000),
    (RING, 4, 1000),
    (RING, 16, 4000),
    (WIDE_RING, 16, 4000),
];

/// Whether a run of a team leaves entries and prints nothing, and another goes on from there.
fn goes_on<R: Threads + Wait + Abort + Sync>(
    rt: &R,
    alloc: Global,
    job: Job,
    disk: &mut MemDisk,
    out: &mut Vec<u8>,
) -> Result<bool, Fail> {
    let more = Job { turns: 4000, ..job };
    let [first, second] = run_twice(rt, alloc, [job, more], disk, out)?;
    let is_left = first.is_done() && first.left.next > 0 && first.printed == 0;
    Ok(is_left && second.is_done() && second.left.next > first.left.next)
}

/// Whether runs go on so in a ring that is freshly formatted.
fn goes_round<R: Threads + Wait + Abort + Sync>(
    rt: &R,
    alloc: Global,
    ring: &[u8],
    job: Job,
) -> Result<bool, Fail> {
    let mut disk = MemDisk::of_bytes(formatted_from(alloc, ring, PASSES, 6, 1_048_576)?);
    let mut out = Vec::new(alloc);
    let told = goes_on(rt, alloc, job, &mut disk, &mut out);
    told
}

#[test]
fn workers_leave_a_device_that_opens(rt: HostRuntime) -> Result<(), Fail> {
    for (ring, workers, turns) in TEAMS {
        let job = Job {
            turns: *turns,
            workers: *workers,
            ..FOUR
        };
        let told = goes_round(&rt, rt.alloc(), ring, job)?;
        assert!(rt; told, "{workers} workers");
    }
    Ok(())
}
