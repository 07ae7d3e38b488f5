//! What `status` is told beside a device.

use crate::typed::{number_of, parted};
use std::alloc::Global;
use std::fs::Files;
use std::time::Duration;
use std::{fs, io};
use tp_program::Watch;

/// How many seconds have gone by since 1970 at a first look: it is 01:46:40 in UTC.
const START: u64 = 1_000_000_000;

/// Another process that has the device at which `status` looks, where there is one; behind how many looks `status` takes a further one; and
/// the file that the process moves to `device` behind the first look, as if it had gone on.
#[derive(Drop)]
pub(crate) struct Watched {
    is_held: bool,
    further: u64,
    file: String,
}

impl Watched {
    /// No other process has a device, and `status` checks once.
    pub(crate) fn none(alloc: Global) -> Watched {
        Watched {
            is_held: false,
            further: 0,
            file: String::new(alloc),
        }
    }

    /// What words say: `FURTHER FILE`.
    pub(crate) fn read(alloc: Global, words: &str) -> io::Result<Watched> {
        let (further, file) = parted(words);
        if further.is_empty() {
            return Ok(Watched::none(alloc));
        }
        Ok(Watched {
            is_held: true,
            further: number_of(further)?,
            file: String::from_str(alloc, file)?,
        })
    }

    /// What a command is told that begins.
    pub(crate) fn watcher<'a, R>(&'a self, rt: &'a R) -> Watcher<'a, R> {
        Watcher {
            rt,
            watched: self,
            looks: 0,
            now: 0,
        }
    }
}

/// What a command is told.
#[derive(Drop)]
pub(crate) struct Watcher<'a, R> {
    rt: &'a R,
    watched: &'a Watched,
    looks: u64,
    now: u64,
}

impl<'a, R: Files> Watch for Watcher<'a, R> {
    fn is_held(&mut self, _device: &str) -> bool {
        self.watched.is_held
    }

    fn now(&mut self) -> io::Result<Duration> {
        Ok(Duration::from_millis(self.now))
    }

    fn clock(&mut self) -> io::Result<Duration> {
        Ok(Duration::from_millis(START.saturating_mul(1000).saturating_add(self.now)))
    }

    fn pause(&mut self, seconds: u32) -> bool {
        if self.looks == 0 {
            let _moved = fs::rename(self.rt, self.watched.file.as_str(), "device");
        }
        self.now = self
            .now
            .saturating_add((seconds as u64).saturating_mul(1000));
        self.looks = self.looks.saturating_add(1);
        self.looks <= self.watched.further
    }
}
