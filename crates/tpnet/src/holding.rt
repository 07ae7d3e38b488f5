//! A device that is written is held by the system's lock of its file.

use crate::file_lock::FileTries;
use std::fs::{File, Files};
use std::time::Clock;
use tp_program::{Found, Held, InUse, Locks, hold_file, hold_made, is_kept};

/// Takes the system's locks.
#[derive(Drop)]
pub(crate) struct SystemLocks<'a, R> {
    rt: &'a R,
}

impl<'a, R> SystemLocks<'a, R> {
    pub(crate) fn new(rt: &'a R) -> SystemLocks<'a, R> {
        SystemLocks { rt }
    }
}

impl<'a, R: Files<File = File> + Clock> Locks<File> for SystemLocks<'a, R> {
    type Lock = Found<File>;

    fn take(&mut self, path: &str, seconds: u32) -> Result<Held<Found<File>>, InUse> {
        hold_file(self.rt, &mut FileTries::new(self.rt), path, seconds)
    }

    fn take_made(&mut self, path: &str, file: File) -> Result<Held<Found<File>>, InUse> {
        hold_made(&mut FileTries::new(self.rt), path, file)
    }

    fn is_kept(&self, lock: &Found<File>, path: &str) -> bool {
        is_kept(self.rt, lock, path)
    }
}
