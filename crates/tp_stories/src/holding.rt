//! Another process, which has the devices.

use crate::rival::Rival;
use crate::typed::{malformed, parted};
use std::alloc::Global;
use std::fs::{Files, OpenOptions};
use std::sync::atomic::AtomicU64;
use std::{fs, io};
use tp_program::{Held, InUse, Locks, Tries, lock_file, lock_made};
use tp_stream_files::{FileNumbers, Noted, Times, numbers_in};

/// How often a command asks in vain for a device that another process has, before that lets it go; and the file that the process removes after each
/// request up to one, or makes, if a `+` is before it. With a `/` after it, it is a folder that is made.
#[derive(Drop)]
pub(crate) struct Holding {
    vain: u32,
    takes: u32,
    file: String,
}

/// The number that a word is; 0 if there is none.
fn asks_of(word: &str) -> io::Result<u32> {
    match word {
        "" => Ok(0),
        _ => match word.parse::<u32>() {
            Ok(asks) => Ok(asks),
            Err(_) => Err(malformed()),
        },
    }
}

impl Holding {
    /// Nobody else has a device.
    pub(crate) fn none(alloc: Global) -> Holding {
        Holding {
            vain: 0,
            takes: 0,
            file: String::new(alloc),
        }
    }

    /// What words say: `VAIN TAKES FILE`.
    pub(crate) fn read(alloc: Global, words: &str) -> io::Result<Holding> {
        let (vain, rest) = parted(words);
        let (takes, file) = parted(rest);
        Ok(Holding {
            vain: asks_of(vain)?,
            takes: asks_of(takes)?,
            file: String::from_str(alloc, file)?,
        })
    }

    /// The other process, as it is when a command begins.
    pub(crate) fn other<'a, R>(&'a self, rt: &'a R, rival: &'a Rival) -> Other<'a, R> {
        Other {
            rt,
            vain: self.vain,
            takes: self.takes,
            file: self.file.as_str(),
            rival,
            asked: AtomicU64::new(0),
        }
    }
}

/// The other process.
#[derive(Drop)]
pub(crate) struct Other<'a, R> {
    rt: &'a R,
    vain: u32,
    takes: u32,
    file: &'a str,
    rival: &'a Rival,
    /// How many questions were asked of the device that is held.
    asked: AtomicU64,
}

/// Removes a file, or makes it, empty, if a `+` is before it. Makes a folder if a `/` is after it.
fn change<R: Files>(rt: &R, file: &str) -> io::Result<()> {
    if let Some(folder) = file.strip_suffix('/') {
        return fs::create_dir(rt, folder);
    }
    match file.strip_prefix('+') {
        Some(made) => {
            OpenOptions::new()
                .write(true)
                .create_new(true)
                .open(rt, made)?;
            Ok(())
        }
        None => fs::remove_file(rt, file),
    }
}

/// Locks, which another process has at each try, or has at none. Nobody really waits for them.
#[derive(Drop)]
struct Vain {
    is_taken: bool,
    answers: Noted,
    pauses: Times,
}

impl Vain {
    /// No lock was tried yet.
    fn new(is_taken: bool) -> Vain {
        Vain {
            is_taken,
            answers: Noted::new(),
            pauses: Times::new(),
        }
    }
}

impl Tries<()> for Vain {
    ghost answers = { λ vain. vain.answers.told };

    ghost pauses = { λ vain. vain.pauses.told };

    fn is_taken(&mut self, _file: &(), pause: Option<u64>) -> bool {
        self.answers = self.answers.answered(self.is_taken);
        self.pauses = self.pauses.answered(pause);
        self.is_taken
    }
}

/// The file that was at a device's path as it was asked for, or was made there.
#[derive(Drop)]
pub(crate) struct Stood {
    file: Option<FileNumbers>,
}

/// What is at a path.
fn standing<R: Files>(rt: &R, path: &str) -> Stood {
    let file = match fs::metadata(rt, path) {
        Ok(kept) => numbers_in(&kept),
        Err(_) => None,
    };
    Stood { file }
}

impl<'a, R: Files, F: Drop> Locks<F> for Other<'a, R> {
    type Lock = Stood;

    fn take(&mut self, path: &str, seconds: u32) -> Result<Held<Stood>, InUse> {
        let stood = standing(self.rt, path);
        if self.takes > 0 {
            self.takes = self.takes.saturating_sub(1);
            let _done = change(self.rt, self.file);
        }
        let is_vain = self.vain > 0;
        self.vain = self.vain.saturating_sub(1);
        match lock_file(&mut Vain::new(is_vain), &(), seconds) {
            Ok(()) => Ok(Held::new(path, stood)),
            Err(in_use) => Err(in_use),
        }
    }

    fn take_made(&mut self, path: &str, _file: F) -> Result<Held<Stood>, InUse> {
        let made = standing(self.rt, path);
        match lock_made(&mut Vain::new(self.rival.locks), &()) {
            Ok(()) => {
                self.rival.come(self.rt, path, &self.asked);
                Ok(Held::new(path, made))
            }
            Err(in_use) => Err(in_use),
        }
    }

    fn is_kept(&self, lock: &Stood, path: &str) -> bool {
        let is_kept = lock.file == standing(self.rt, path).file;
        self.rival.come(self.rt, path, &self.asked);
        is_kept
    }
}
