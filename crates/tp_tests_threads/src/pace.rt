//! A gate at which a team waits for a flusher, time and again.

use crate::hold::LOOKS;
use std::sync::atomic::{AtomicU32, Ordering};
use std::thread::yield_now;
use tp_flush::FLUSHER;
use tp_shared::Gate;
use tp_shared::gate::{BACKLOG_COPIED, NUMBER_TAKEN};

/// Of how many turns the last one waits.
pub const EVERY: u32 = 20;

/// Keeps a team and a flusher beside each other: of each [`EVERY`] turns the last one begins once the flusher has copied again, or after too many
/// checks for that.
#[derive(Drop)]
pub struct Pace {
    taken: AtomicU32,
    copied: AtomicU32,
    met: AtomicU32,
}

impl Pace {
    pub fn new() -> Pace {
        Pace {
            taken: AtomicU32::new(0),
            copied: AtomicU32::new(0),
            met: AtomicU32::new(0),
        }
    }

    /// How many turns waited until the flusher copied.
    pub fn met(&self) -> u32 {
        self.met.load(Ordering::SeqCst)
    }

    // Waits until the flusher has copied once more.
    fn meet(&self) {
        let before = self.copied.load(Ordering::SeqCst);
        for _ in 0..LOOKS {
            if self.copied.load(Ordering::SeqCst) != before {
                self.met.fetch_add(1, Ordering::SeqCst);
                return;
            }
            yield_now();
        }
    }
}

/// The gate in the hands of a team and of a flusher.
#[derive(Drop)]
pub struct Paced<'a> {
    pub pace: &'a Pace,
}

impl<'a> Gate for Paced<'a> {
    fn at(&self, process: u8, point: u8) {
        if process == FLUSHER && point == BACKLOG_COPIED {
            self.pace.copied.fetch_add(1, Ordering::SeqCst);
        }
        if process == FLUSHER || point != NUMBER_TAKEN {
            return;
        }
        if self.pace.taken.fetch_add(1, Ordering::SeqCst) % EVERY == EVERY - 1 {
            self.pace.meet();
        }
    }
}
