//! Workers that stay from one shift to the next, and sleep in between.

use std::sync::Wait;
use std::sync::atomic::{AtomicBool, AtomicU64, Ordering};
use std::time::Duration;

/// How many milliseconds the stream sleeps at most between two checks whether all workers have come.
const SLEEP: u64 = 10;

/// How often it checks that at most.
const LOOKS: u32 = 100;

/// The workers of a stream:
/// - `here`: how many have come
/// - `was_awaited`: whether the stream has waited for them
/// - `inside`: how many are in the open shift
/// - `opened`: how many shifts were opened; workers sleep on this number
/// - `is_dismissed`: whether no more shifts will be opened
#[derive(Drop)]
pub(crate) struct Crew {
    here: AtomicU64,
    was_awaited: AtomicBool,
    inside: AtomicU64,
    opened: AtomicU64,
    is_dismissed: AtomicBool,
}

impl Crew {
    /// Begins with no worker.
    pub(crate) fn new() -> Crew {
        Crew {
            here: AtomicU64::new(0),
            was_awaited: AtomicBool::new(false),
            inside: AtomicU64::new(0),
            opened: AtomicU64::new(0),
            is_dismissed: AtomicBool::new(false),
        }
    }

    /// Tells that a worker has come.
    pub(crate) fn come(&self) {
        self.here.fetch_add(1, Ordering::SeqCst);
        self.here.wake_all();
    }

    /// Whether `count` workers have come. The first call waits for them, up to a second, since some never come if no more threads could be made.
    pub(crate) fn are_here<R: Wait>(&self, rt: &R, count: u64) -> bool {
        let looks = if self.was_awaited.swap(true, Ordering::SeqCst) {
            0
        } else {
            LOOKS
        };
        for _ in 0..looks {
            let here = self.here.load(Ordering::SeqCst);
            if here >= count {
                return true;
            }
            self.here.park_timeout(
                rt,
                (here & 0xffff_ffff) as u32,
                Duration::from_millis(SLEEP),
            );
        }
        self.here.load(Ordering::SeqCst) >= count
    }

    /// Tells that a shift is opened, and wakes all workers that sleep.
    pub(crate) fn call(&self) {
        self.opened.fetch_add(1, Ordering::SeqCst);
        self.opened.wake_all();
    }

    /// Tells that no more shifts are opened, and wakes all workers that sleep, so that they end.
    pub(crate) fn dismiss(&self) {
        self.is_dismissed.store(true, Ordering::SeqCst);
        self.call();
    }

    /// Waits until more than `seen` shifts were opened, and answers how many were; `None` once no more will be.
    pub(crate) fn wait<R: Wait>(&self, rt: &R, seen: u64) -> Option<u64> {
        for _ in rt.forever() {
            let opened = self.opened.load(Ordering::SeqCst);
            if self.is_dismissed.load(Ordering::SeqCst) {
                return None;
            }
            if opened != seen {
                return Some(opened);
            }
            self.opened.park(rt, (opened & 0xffff_ffff) as u32);
        }
        None
    }

    /// Tells that a worker enters the open shift.
    pub(crate) fn enter(&self) {
        self.inside.fetch_add(1, Ordering::SeqCst);
    }

    /// Tells that a worker leaves the shift. Answers whether it was the last one in it.
    pub(crate) fn leave(&self) -> bool {
        self.inside.fetch_sub(1, Ordering::SeqCst) == 1
    }

    /// Whether no worker is in the shift.
    pub(crate) fn is_out(&self) -> bool {
        self.inside.load(Ordering::SeqCst) == 0
    }
}
