//! Runs on a device in memory, and what is on the device then.

ghost use Rattle.std.specs.Prelude.{◌≡◌, ◌<◌, ◌≤◌, true};
ghost use Rattle.tp_tests_stream.specs.Lower.{MAX_STEPS, MAX_WORKERS, Steps};

use crate::devices::{ONE, formatted};
use crate::players::{Left, look_at};
use std::alloc::Global;
use std::mem;
use std::process::Abort;
use std::sync::Wait;
use std::test::Fail;
use std::thread::Threads;
use tp_disk::{Disk, MemDisk};
use tp_run::{Job, MAX_WORKERS, Outlet, RunFault, run};
use tp_tests_fixtures::SENDS_A;

/// Four turns of one worker, of 16 steps at most.
pub(crate) const FOUR: Job = Job {
    turns: 4,
    workers: 1,
    quantum: 16,
    spare: 4,
    every: None,
    port: 0,
};

/// The device of one node that sends a letter, with areas of 16,384 bytes.
pub(crate) fn letter(alloc: Global) -> Result<MemDisk, Fail> {
    Ok(MemDisk::of_bytes(formatted(alloc, ONE, SENDS_A, 16_384)?))
}

// A run, if as many workers and steps are asked for as may be.
fn run_within<D: Disk + Send + Drop, R: Threads + Wait + Sync, O: Outlet<D>>(
    rt: &R,
    alloc: Global,
    job: Job,
    disk: D,
    input: &[u8],
    out: &mut O,
) -> (D, Result<u64, RunFault>)
    requires workers { (0 < job.workers) × (job.workers ≤ MAX_WORKERS) }
    requires quantum { (0 < job.quantum) × (job.quantum ≤ MAX_STEPS) }
    requires allowed { Steps → D.writable ≡ true }
{
    let (disk, done, _rest) = run(rt, alloc, job, disk, input, out);
    (disk, done)
}

/// A run.
pub(crate) fn run_on<R: Threads + Wait + Abort + Sync, O: Outlet<MemDisk>>(
    rt: &R,
    alloc: Global,
    job: Job,
    disk: &mut MemDisk,
    input: &[u8],
    out: &mut O,
) -> Result<u64, RunFault> {
    assert!(rt; 0 < job.workers);
    assert!(rt; job.workers <= MAX_WORKERS);
    assert!(rt; 0 < job.quantum);
    assert!(rt; job.quantum <= 4096);
    let lent = mem::replace(disk, MemDisk::of_bytes(Vec::new(alloc)));
    let (again, done) = run_within(rt, alloc, job, lent, input, out);
    *disk = again;
    done
}

/// A crash, which leaves what is synced.
pub(crate) fn crash(alloc: Global, disk: &mut MemDisk) {
    let lent = mem::replace(disk, MemDisk::of_bytes(Vec::new(alloc)));
    *disk = MemDisk::of_bytes(lent.crash());
}

/// What a crash leaves of a device.
pub(crate) fn left(alloc: Global, disk: &mut MemDisk) -> Result<Left, Fail> {
    crash(alloc, disk);
    look_at(alloc, disk)
}

/// What a run answers, how many bytes were printed up to its end, and what a crash leaves of the device after it.
#[derive(Clone, Copy)]
pub(crate) struct Look {
    pub(crate) done: Result<u64, RunFault>,
    pub(crate) printed: usize,
    pub(crate) left: Left,
}

impl Look {
    /// Whether the run answers the number of the next entry.
    pub(crate) fn is_done(&self) -> bool {
        self.done == Ok(self.left.next)
    }

    /// Whether entries are in the cut, and the areas were switched at least `times` times.
    pub(crate) fn is_switched(&self, times: u64) -> bool {
        self.left.base > 0 && self.left.generation > times
    }
}

/// A run, and what a crash leaves of its device.
pub(crate) fn run_and_look<R: Threads + Wait + Abort + Sync>(
    rt: &R,
    alloc: Global,
    job: Job,
    disk: &mut MemDisk,
    input: &[u8],
    out: &mut Vec<u8>,
) -> Result<Look, Fail> {
    let done = run_on(rt, alloc, job, disk, input, out);
    let printed = out.len();
    let left = left(alloc, disk)?;
    Ok(Look {
        done,
        printed,
        left,
    })
}

/// Two runs one after the other, with a crash between them.
pub(crate) fn run_twice<R: Threads + Wait + Abort + Sync>(
    rt: &R,
    alloc: Global,
    jobs: [Job; 2],
    disk: &mut MemDisk,
    out: &mut Vec<u8>,
) -> Result<[Look; 2], Fail> {
    let first = run_and_look(rt, alloc, jobs[0], disk, b"", out)?;
    let second = run_and_look(rt, alloc, jobs[1], disk, b"", out)?;
    Ok([first, second])
}
