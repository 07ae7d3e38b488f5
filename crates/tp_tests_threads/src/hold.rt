//! A gate that holds a process.

use std::sync::atomic::{AtomicBool, Ordering};
use std::thread::yield_now;
use tp_shared::Gate;

/// How often a thread looks for another, at most: so often that what ends a test that hangs comes first.
pub const LOOKS: u32 = 1_000_000_000;

/// Checks until the flag is set, and yields between two checks. Answers whether it was.
pub fn comes(flag: &AtomicBool) -> bool {
    for _ in 0..LOOKS {
        if flag.load(Ordering::SeqCst) {
            return true;
        }
        yield_now();
    }
    false
}

/// Holds a process at a point, the first time it comes there, until it is released or has looked for that too often.
#[derive(Drop)]
pub struct Hold {
    process: u8,
    point: u8,
    is_there: AtomicBool,
    is_open: AtomicBool,
    was_let_go: AtomicBool,
}

impl Hold {
    pub fn new(process: u8, point: u8) -> Hold {
        Hold {
            process,
            point,
            is_there: AtomicBool::new(false),
            is_open: AtomicBool::new(false),
            was_let_go: AtomicBool::new(false),
        }
    }

    /// Waits until the process is there. Answers whether it came.
    pub fn wait(&self) -> bool {
        comes(&self.is_there)
    }

    /// Waits until the process is there, if it is another one than `process`. Answers whether it came.
    pub fn wait_as(&self, process: u8) -> bool {
        process == self.process || self.wait()
    }

    /// Lets the process go, if it is another one than `process`.
    pub fn open_as(&self, process: u8) {
        if process != self.process {
            self.is_open.store(true, Ordering::SeqCst);
        }
    }

    /// Whether the process was held until it was released.
    pub fn was_let_go(&self) -> bool {
        self.was_let_go.load(Ordering::SeqCst)
    }
}

impl Gate for Hold {
    fn at(&self, process: u8, point: u8) {
        if process != self.process || point != self.point {
            return;
        }
        if self.is_there.swap(true, Ordering::SeqCst) {
            return;
        }
        let went = comes(&self.is_open);
        self.was_let_go.store(went, Ordering::SeqCst);
    }
}
