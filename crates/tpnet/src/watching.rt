//! Who holds a device, and what time it is, for `tpnet status`.

use crate::file_lock::FileTries;
use std::fs::{File, Files};
use std::io;
use std::thread::sleep;
use std::time::{Clock, Duration};
use tp_program::{Watch, is_held};

/// Looks at a device's lock by taking a shared one, which it gives back at once, and goes by the system's clock.
#[derive(Drop)]
pub(crate) struct Watcher<'a, R> {
    rt: &'a R,
}

impl<'a, R> Watcher<'a, R> {
    pub(crate) fn new(rt: &'a R) -> Watcher<'a, R> {
        Watcher { rt }
    }
}

impl<'a, R: Files<File = File> + Clock> Watch for Watcher<'a, R> {
    fn is_held(&mut self, device: &str) -> bool {
        is_held(self.rt, &mut FileTries::shared(self.rt), device)
    }

    fn now(&mut self) -> io::Result<Duration> {
        self.rt.monotonic()
    }

    fn clock(&mut self) -> io::Result<Duration> {
        self.rt.since_1970()
    }

    fn pause(&mut self, seconds: u32) -> bool {
        sleep(self.rt, Duration::from_secs(u64::from(seconds)));
        true
    }
}
