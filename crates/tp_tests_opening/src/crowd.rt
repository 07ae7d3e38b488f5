//! Threads that wait for each other at a gate.

use std::sync::atomic::{AtomicU32, Ordering};
use std::thread::yield_now;
use tp_replay::{Gate, PIECE_BEGUN};

/// How often a thread looks for the others, at most. If one comes no more that is a second or two, and the test fails by what was counted.
const LOOKS: u32 = 1_000_000;

/// A gate that holds each thread until as many have come as a crowd has. Counts how many have come, and how many of these saw that all had; and
/// adds 2 to the power of the node with which a piece begins.
#[derive(Drop)]
pub(crate) struct Crowd {
    size: u32,
    come: AtomicU32,
    met: AtomicU32,
    nodes: AtomicU32,
}

impl Crowd {
    pub(crate) fn new(size: u32) -> Crowd {
        Crowd {
            size,
            come: AtomicU32::new(0),
            met: AtomicU32::new(0),
            nodes: AtomicU32::new(0),
        }
    }

    /// Comes, and checks until all have come, `LOOKS` times at most; yields between two checks.
    fn meet(&self) {
        self.come.fetch_add(1, Ordering::SeqCst);
        for _ in 0..LOOKS {
            if self.come.load(Ordering::SeqCst) >= self.size {
                self.met.fetch_add(1, Ordering::SeqCst);
                return;
            }
            yield_now();
        }
    }

    /// How many have come, how many of them saw all, and what their nodes add up to.
    pub(crate) fn counts(&self) -> (u32, u32, u32) {
        (
            self.come.load(Ordering::SeqCst),
            self.met.load(Ordering::SeqCst),
            self.nodes.load(Ordering::SeqCst),
        )
    }
}

impl Gate for Crowd {
    fn at(&self, process: u8, point: u8) {
        if point == PIECE_BEGUN {
            let node = 1u32.wrapping_shl(u32::from(process));
            self.nodes.fetch_add(node, Ordering::SeqCst);
        }
        self.meet();
    }
}
