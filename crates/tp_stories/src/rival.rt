//! Another process that wants the path at which a command makes a device.

use crate::typed::{malformed, number_of, parted};
use std::alloc::Global;
use std::fs::Files;
use std::sync::atomic::{AtomicU64, Ordering};
use std::{fs, io};

/// When a file is moved over one that is to get a second name.
#[derive(Clone, Copy, PartialEq, Eq)]
pub(crate) enum Usurps {
    /// Right before what is there is asked for the first time.
    AtLook,
    /// Right before that gets its second name.
    AtLink,
}

/// What another process does at the path of a device while a command makes it.
#[derive(Drop)]
pub(crate) struct Rival {
    /// Whether it takes the lock of a file that was made there.
    pub(crate) locks: bool,
    /// When it moves a file over one that is to get a second name, if it does so.
    usurps: Option<Usurps>,
    /// After which of the questions that a command asks of the device which it holds a file is moved there; after none for 0.
    behind: u64,
    /// That file.
    file: String,
}

impl Rival {
    /// There is no such process.
    pub(crate) fn none(alloc: Global) -> Rival {
        Rival {
            locks: false,
            usurps: None,
            behind: 0,
            file: String::new(alloc),
        }
    }

    /// What words say: `locks`, `looks FILE`, `links FILE`, or `COUNT FILE`.
    pub(crate) fn read(alloc: Global, words: &str) -> io::Result<Rival> {
        let none = Rival::none(alloc);
        match parted(words) {
            ("", "") => Ok(none),
            ("locks", "") => Ok(Rival {
                locks: true,
                ..none
            }),
            (_, "") => Err(malformed()),
            ("looks", file) => Ok(Rival {
                usurps: Some(Usurps::AtLook),
                file: String::from_str(alloc, file)?,
                ..none
            }),
            ("links", file) => Ok(Rival {
                usurps: Some(Usurps::AtLink),
                file: String::from_str(alloc, file)?,
                ..none
            }),
            (count, file) => Ok(Rival {
                behind: number_of(count)?,
                file: String::from_str(alloc, file)?,
                ..none
            }),
        }
    }

    /// The file that it moves over one that is to get a second name, and when, if it does so.
    pub(crate) fn usurper(&self, alloc: Global) -> io::Result<Option<(Usurps, String)>> {
        match self.usurps {
            Some(usurps) => Ok(Some((usurps, String::from_str(alloc, self.file.as_str())?))),
            None => Ok(None),
        }
    }

    /// Comes to pass after a question about a path, before which `asked` were.
    pub(crate) fn come<R: Files>(&self, rt: &R, path: &str, asked: &AtomicU64) {
        let number = asked.load(Ordering::SeqCst).saturating_add(1);
        asked.store(number, Ordering::SeqCst);
        if number == self.behind {
            let _moved = fs::rename(rt, self.file.as_str(), path);
        }
    }
}
