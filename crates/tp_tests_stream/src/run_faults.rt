//! Devices that fail, and outlets that take little and fail.

ghost use Rattle.std.specs.Prelude.{None};
ghost use Rattle.tp_run.specs.Outlet.{unnoted};

use crate::devices::{ECHO, ONE, formatted};
use crate::ends_told::Taker;
use crate::runs::{FOUR, left, letter, run_on};
use std::alloc::{AllocError, Global};
use std::io::ErrorKind;
use std::process::Abort;
use std::sync::Wait;
use std::test::Fail;
use std::thread::Threads;
use tp_disk::{Disk, MemDisk, PlannedFault};
use tp_flush::Flusher;
use tp_run::{Job, Outlet, OutletFault, RunFault};
use tp_shared::Naming;

/// More calls than a run makes on the device.
const CALLS: u64 = 40;

/// How a call fails.
const KINDS: u8 = 4;

fn fault_of(alloc: Global, kind: u8) -> Result<PlannedFault, AllocError> {
    Ok(match kind {
        0 => PlannedFault::StopsBefore,
        1 => PlannedFault::Fails {
            torn: Vec::new(alloc),
        },
        2 => PlannedFault::Fails {
            torn: Vec::from_elem(alloc, 0xA5, 64)?,
        },
        _ => PlannedFault::StopsWithin {
            torn: Vec::from_elem(alloc, 0xA5, 64)?,
        },
    })
}

/// Whether a run that answers so printed its letter; none if it printed something else, or answers another fault.
fn was_printed(done: Result<u64, RunFault>, out: &[u8]) -> Option<bool> {
    let (is_letter, wanted) = match done {
        Ok(next) => (true, next == 5),
        Err(RunFault::LastFlushFailed) => (true, true),
        Err(RunFault::FlushFailed | RunFault::Opening(_)) => (false, true),
        Err(_) => (false, false),
    };
    let printed = if is_letter { b"A".as_slice() } else { b"" };
    if wanted && out == printed {
        Some(is_letter)
    } else {
        None
    }
}

/// Whether a run after one that ended so is done: the letter is printed again, or was confirmed.
fn goes_on<R: Threads + Wait + Abort + Sync>(
    rt: &R,
    alloc: Global,
    disk: &mut MemDisk,
    done: Result<u64, RunFault>,
    was_printed: bool,
) -> Result<bool, Fail> {
    let next = left(alloc, disk)?.next;
    let is_kept = !was_printed || next >= 4;
    let is_told = done != Ok(next) || next == 5;
    let again = Job { turns: 64, ..FOUR };
    let mut then = Vec::new(alloc);
    let later = run_on(rt, alloc, again, disk, b"x", &mut then);
    let printed = if next == 5 { b"" } else { b"A".as_slice() };
    Ok(is_kept && is_told && later.is_ok() && then.as_slice() == printed)
}

/// A run over a device with one call that fails, and one after it. Answers whether the first one failed; `None` if what was printed isn't right: each
/// output was printed again, or was confirmed.
fn play_fault<R: Threads + Wait + Abort + Sync>(
    rt: &R,
    alloc: Global,
    disk: &mut MemDisk,
    out: &mut Vec<u8>,
) -> Result<Option<bool>, Fail> {
    let done = run_on(rt, alloc, FOUR, disk, b"x", out);
    let Some(was_printed) = was_printed(done, out) else {
        return Ok(None);
    };
    let goes_on = goes_on(rt, alloc, disk, done, was_printed)?;
    Ok(if goes_on { Some(done.is_err()) } else { None })
}

/// Runs over a device whose call `call` fails in the way `kind`, and over what that leaves.
fn play_call<R: Threads + Wait + Abort + Sync>(
    rt: &R,
    alloc: Global,
    call: u64,
    kind: u8,
) -> Result<Option<bool>, Fail> {
    let mut disk = letter(alloc)?.with_fault(call, fault_of(alloc, kind)?);
    let mut out = Vec::new(alloc);
    let failed = play_fault(rt, alloc, &mut disk, &mut out);
    failed
}

/// In how many calls a run failed that fails in this way. None if something doesn't go on as it should.
fn count_failed<R: Threads + Wait + Abort + Sync>(
    rt: &R,
    alloc: Global,
    kind: u8,
) -> Result<Option<u64>, Fail> {
    let mut failed = 0u64;
    for call in 0..CALLS {
        match play_call(rt, alloc, call, kind)? {
            Some(true) => failed = failed.saturating_add(1),
            Some(false) => {}
            None => return Ok(None),
        }
    }
    Ok(Some(failed))
}

#[test]
fn any_call_of_the_device_may_fail(rt: HostRuntime) -> Result<(), Fail> {
    for kind in 0..KINDS {
        let failed = count_failed(&rt, rt.alloc(), kind)?;
        assert!(rt;
            matches!(failed, Some(failed) if 16 < failed && failed < CALLS),
            "kind {kind}"
        );
    }
    Ok(())
}

/// As many turns as may be asked for: nobody waits for them.
const ENDLESS: Job = Job {
    turns: u32::MAX,
    ..FOUR
};

/// Whether a run of [`ENDLESS`] turns by `workers` workers ends as its device's call `call` fails, and prints nothing.
fn ends_broken<R: Threads + Wait + Abort + Sync>(
    rt: &R,
    alloc: Global,
    call: u64,
    workers: u8,
) -> Result<bool, Fail> {
    let job = Job { workers, ..ENDLESS };
    let mut disk = letter(alloc)?.with_fault(call, fault_of(alloc, 1)?);
    let mut out = Vec::new(alloc);
    let done = run_on(rt, alloc, job, &mut disk, b"x", &mut out);
    Ok(done == Err(RunFault::FlushFailed) && out.is_empty())
}

/// A run ends once a call of its device has failed, however many turns are left, early or after checkpoints: by one worker, by two, of which one
/// rests, and by more than there are processes.
#[test]
fn a_run_ends_where_its_device_fails(rt: HostRuntime) -> Result<(), Fail> {
    for workers in [1u8, 2, 16] {
        for call in [CALLS, 40 * CALLS] {
            let told = ends_broken(&rt, rt.alloc(), call, workers)?;
            assert!(rt; told, "{workers} workers, call {call}");
        }
    }
    Ok(())
}

/// An outlet that is interrupted before each byte that it takes, and fails once it has no room: what it took, and how many bytes each call
/// was for.
#[derive(Drop)]
struct Slow {
    room: usize,
    is_ready: bool,
    taken: Vec<u8>,
    asked: Vec<usize>,
}

impl Slow {
    fn with_room(alloc: Global, room: usize) -> Slow {
        Slow {
            room,
            is_ready: false,
            taken: Vec::new(alloc),
            asked: Vec::new(alloc),
        }
    }

    /// Whether it took these bytes, by calls for these numbers.
    fn has(&self, taken: &[u8], asked: &[usize]) -> bool {
        self.taken.as_slice() == taken && self.asked.as_slice() == asked
    }
}

impl<D: Disk> Outlet<D> for Slow {
    ghost value = { λ _. unnoted None };

    fn print<J: Naming>(
        &mut self,
        _flusher: &Flusher<J, D>,
        bytes: &[u8],
    ) -> Result<usize, OutletFault> {
        self.is_ready = !self.is_ready;
        if self.asked.push(bytes.len()).is_err() {
            return Err(OutletFault::Failed);
        }
        if self.is_ready {
            return Err(OutletFault::Interrupted);
        }
        if self.room == 0 || bytes.is_empty() || self.taken.push(bytes[0]).is_err() {
            return Err(OutletFault::Failed);
        }
        self.room -= 1;
        Ok(1)
    }
}

/// A run that hands in three bytes, and prints them.
const ECHOES: Job = Job { turns: 64, ..FOUR };

/// Whether a run on the device of a node that echoes ends with that fault, or with none, once its outlet, which has room for `room` bytes, took these
/// bytes, by calls for these numbers.
fn ends_so<R: Threads + Wait + Abort + Sync>(
    rt: &R,
    alloc: Global,
    disk: &mut MemDisk,
    room: usize,
    fault: Option<RunFault>,
    taken: &[u8],
    asked: &[usize],
) -> bool {
    let mut slow = Slow::with_room(alloc, room);
    let done = run_on(rt, alloc, ECHOES, disk, b"abc", &mut slow);
    done.err() == fault && slow.has(taken, asked)
}

/// The calls for three bytes, if each other call takes one.
const ALL: &[usize] = &[3, 3, 2, 2, 1, 1];

#[test]
fn an_outlet_is_called_for_what_it_has_not_taken(rt: HostRuntime) -> Result<(), Fail> {
    let alloc = rt.alloc();
    let mut disk = MemDisk::of_bytes(formatted(alloc, ONE, ECHO, 16_384)?);
    let told = ends_so(&rt, alloc, &mut disk, 3, None, b"abc", ALL);
    assert!(rt; told);
    Ok(())
}

#[test]
fn an_outlet_that_failed_is_not_called_again(rt: HostRuntime) -> Result<(), Fail> {
    let alloc = rt.alloc();
    let mut disk = MemDisk::of_bytes(formatted(alloc, ONE, ECHO, 16_384)?);
    let failed = Some(RunFault::OutputFailed);
    let has_failed = ends_so(&rt, alloc, &mut disk, 1, failed, b"a", &[3, 3, 2, 2]);
    let told = ends_so(&rt, alloc, &mut disk, 3, None, b"abc", ALL);
    assert!(rt; has_failed && told);
    Ok(())
}

/// Whether a run on the device of a node that echoes ends with that fault, or with none, once a writer took these bytes. Its first `failed` writes
/// fail with this error, and each other one takes `most` bytes.
fn writes_so<R: Threads + Wait + Abort + Sync>(
    rt: &R,
    alloc: Global,
    disk: &mut MemDisk,
    (failed, how, most): (u32, ErrorKind, usize),
    fault: Option<RunFault>,
    taken: &[u8],
) -> bool {
    let mut taker = Taker {
        bytes: Vec::new(alloc),
        failed,
        how,
        most,
    };
    let done = run_on(rt, alloc, ECHOES, disk, b"abc", &mut taker);
    done.err() == fault && taker.bytes.as_slice() == taken
}

/// A writer that fails, or takes nothing, ends the run, and the next one prints all.
#[test]
fn a_writer_that_is_interrupted_is_called_again(rt: HostRuntime) -> Result<(), Fail> {
    let alloc = rt.alloc();
    let mut disk = MemDisk::of_bytes(formatted(alloc, ONE, ECHO, 16_384)?);
    let failed = Some(RunFault::OutputFailed);
    for how in [(1, ErrorKind::WouldBlock, 1), (0, ErrorKind::WouldBlock, 0)] {
        let has_failed = writes_so(&rt, alloc, &mut disk, how, failed, b"");
        assert!(rt; has_failed);
    }
    let interrupted = (3, ErrorKind::Interrupted, 1);
    let told = writes_so(&rt, alloc, &mut disk, interrupted, None, b"abc");
    assert!(rt; told);
    Ok(())
}
