//! Opening a device with several threads, while another process may be running it.

ghost use Rattle.std.specs.Prelude.{◌≡◌, ◌≤◌, ◌<◌, ◌^◌, IfOk};
ghost use Rattle.tp_views.specs.Lower.{AreTrue, WereTrue, areas_end, Sync, done, Counts, verdict, has_read, ReadAnswer, LeavesAlone, LeavesNothingNew};
ghost use Rattle.tp_views.specs.Opens.{IsUnwritten};
ghost use Rattle.tp_views.specs.Steady.{OfSteady, has_tried};

use crate::steady::{MAX_TRIES, Tried, is_still, look};
use std::alloc::Global;
use std::thread::Threads;
use tp_disk::Disk;
use tp_recover::{Opened, Unopened, open, open_parallel};
use tp_replay::NoGate;
use tp_words::MAX_WORKERS;

/// Opens a device with `workers` threads, 2 to 16. With 1, or a number that no command line asks for, this thread opens it alone. Its answer is that
/// of `tp_recover::open`.
pub fn open_by<D: Disk, R: Threads + Sync>(
    rt: &R,
    alloc: Global,
    disk: &mut D,
    workers: u8,
) -> Result<Opened, Unopened>
    ensures counts { Counts (has_read result) (D.size_of disk.old) (D.size_of disk.new) (D.failures_of disk.old) (D.failures_of disk.new) }
    ensures premise { WereTrue (D.reads disk.old) (D.reads disk.new) }
    ensures kept { LeavesAlone result (done Sync (D.state disk.old).now) (D.state disk.new).now }
    ensures leaves { LeavesNothingNew (D.state disk.old) (D.state disk.new) }
    ensures whole { IfOk result (λ opened. areas_end opened.head.areas ≤ D.size_of disk.old) }
    ensures counted { IfOk result (λ opened. D.size_of disk.old < 2 ^ 64) }
    ensures is { AreTrue (D.reads disk.new) → ReadAnswer (λ opened. opened) (verdict (D.state disk.old).now.bytes) result }
{
    if 1 < workers && workers <= MAX_WORKERS {
        open_parallel(alloc, disk, workers, &NoGate, rt)
    } else {
        open(alloc, disk)
    }
}

/// Opens a device with `workers` threads, as `open_once` does with one.
fn open_once_by<D: Disk, R: Threads + Sync>(
    rt: &R,
    alloc: Global,
    disk: &mut D,
    workers: u8,
) -> Tried
    ensures counts { Counts (has_tried result) (D.size_of disk.old) (D.size_of disk.new) (D.failures_of disk.old) (D.failures_of disk.new) }
    ensures premise { WereTrue (D.reads disk.old) (D.reads disk.new) }
    ensures kept { IsUnwritten (D.failures_of disk.old) (D.failures_of disk.new) (D.state disk.old).now (D.state disk.new).now }
    ensures leaves { LeavesNothingNew (D.state disk.old) (D.state disk.new) }
    ensures is { AreTrue (D.reads disk.new) → OfSteady (ReadAnswer (λ opened. opened) (verdict (D.state disk.old).now.bytes)) result }
{
    let Ok(before) = look(disk) else {
        return Tried::Steady(Err(Unopened::ReadFailed));
    };
    let answer = match open_by(rt, alloc, disk, workers) {
        Err(Unopened::ReadFailed) => return Tried::Steady(Err(Unopened::ReadFailed)),
        answer => answer,
    };
    match look(disk) {
        Ok(after) if is_still(before, after) => Tried::Steady(answer),
        Ok(_) => Tried::Changed,
        Err(_) => Tried::Steady(Err(Unopened::ReadFailed)),
    }
}

/// Opens a device with `workers` threads, as `open_steady` does with one, and promises as much about the answer.
pub fn open_steady_by<D: Disk, R: Threads + Sync>(
    rt: &R,
    alloc: Global,
    disk: &mut D,
    workers: u8,
) -> Tried
    ensures counts { Counts (has_tried result) (D.size_of disk.old) (D.size_of disk.new) (D.failures_of disk.old) (D.failures_of disk.new) }
    ensures premise { WereTrue (D.reads disk.old) (D.reads disk.new) }
    ensures kept { IsUnwritten (D.failures_of disk.old) (D.failures_of disk.new) (D.state disk.old).now (D.state disk.new).now }
    ensures leaves { LeavesNothingNew (D.state disk.old) (D.state disk.new) }
    ensures is { AreTrue (D.reads disk.new) → OfSteady (ReadAnswer (λ opened. opened) (verdict (D.state disk.old).now.bytes)) result }
{
    let mut left = MAX_TRIES;
    while left > 0 {
        left -= 1;
        if let Tried::Steady(answer) = open_once_by(rt, alloc, disk, workers) {
            return Tried::Steady(answer);
        }
    }
    Tried::Changed
}
