//! How much of what was said isn't written yet.

use std::alloc::Global;
use std::sync::atomic::{AtomicU64, Ordering};
use std::sync::{Arc, Wait};
use std::thread::sleep;
use std::time::{Clock, Duration};

/// How many milliseconds are between two checks whether all is written.
const PAUSE: u64 = 1;

/// How many milliseconds others wait until what was said is written: standard output before its first byte, and whoever is to let a device go.
const PATIENCE: u64 = 5000;

/// How many pieces aren't written yet, which two threads count. There is no count if there was no memory for it.
#[derive(Drop)]
pub(crate) struct Backlog {
    count: Option<Arc<AtomicU64, Global>>,
}

impl Backlog {
    /// All is written.
    pub(crate) fn new(alloc: Global) -> Backlog {
        Backlog {
            count: Arc::new(alloc, AtomicU64::new(0)).ok(),
        }
    }

    /// Whether there is a count.
    pub(crate) fn is_counted(&self) -> bool {
        self.count.is_some()
    }

    /// This count, for somebody else.
    pub(crate) fn shared(&self) -> Backlog {
        Backlog {
            count: match &self.count {
                Some(count) => Arc::try_clone(count).ok(),
                None => None,
            },
        }
    }

    /// A piece is to be written.
    pub(crate) fn add(&self) {
        if let Some(count) = &self.count {
            count.fetch_add(1, Ordering::SeqCst);
        }
    }

    /// A piece is written, or dropped.
    pub(crate) fn take(&self) {
        if let Some(count) = &self.count {
            count.fetch_sub(1, Ordering::SeqCst);
        }
    }

    /// Whether all is written. It checks anew each time.
    pub(crate) fn is_empty(&self) -> bool {
        match &self.count {
            Some(count) => count.load(Ordering::SeqCst) == 0,
            None => true,
        }
    }

    /// Waits until all is written.
    pub(crate) fn wait<R: Wait + Clock>(&self, rt: &R) {
        for _ in rt.forever() {
            if self.is_empty() {
                break;
            }
            sleep(rt, Duration::from_millis(PAUSE));
        }
    }

    /// Waits until all is written, or some seconds have gone by.
    pub(crate) fn wait_awhile<R: Clock>(&self, rt: &R) {
        for _ in 0..PATIENCE / PAUSE {
            if self.is_empty() {
                break;
            }
            sleep(rt, Duration::from_millis(PAUSE));
        }
    }
}
