//! The files below, for commands whose standard streams are files or whose calls fail.

use crate::faulty::{Faults, FaultyFile};
use crate::rival::Usurps;
use std::alloc::{Allocator, Global};
use std::fs::{Files, Metadata, OpenOptions};
use std::io;
use std::sync::{Mutex, Wait};
use std::thread::Threads;
use tp_stream_files::{StandardFile, StandardStream, StandardStreams, numbers_in};

/// Files beside which standard streams may be redirected to files, and in which calls may fail.
pub(crate) trait Redirects: StandardStreams {
    /// Takes these for the standard streams from now on.
    fn redirect(&self, streams: Vec<(StandardStream, String)>);

    /// Has another process move a file of this path over one that is to be linked, at that moment, or none.
    fn usurp(&self, usurper: Option<(Usurps, String)>);

    /// What becomes of calls.
    fn faults(&self) -> &Faults;
}

/// The files below, beside which each of these streams is the file of a path, and calls fail. A story's commands change which they are. It is made
/// once, where the system is known, since what commands send to threads may not depend on what is only assumed of it.
#[derive(Drop)]
pub(crate) struct Redirected<'a, R> {
    below: &'a R,
    faults: &'a Faults,
    streams: Mutex<Vec<(StandardStream, String)>>,
    usurper: Mutex<Option<(Usurps, String)>>,
}

impl<'a, R: AllocGlobal> Redirected<'a, R> {
    /// These files, with these faults, and with no stream redirected.
    pub(crate) fn new(below: &'a R, faults: &'a Faults) -> Redirected<'a, R> {
        let streams = Mutex::new(Vec::new(below.alloc()));
        Redirected {
            below,
            faults,
            streams,
            usurper: Mutex::new(None),
        }
    }
}

/// The path of the file that a stream is, if it is redirected to one.
fn path_behind(streams: &[(StandardStream, String)], stream: StandardStream) -> Option<&str> {
    for (redirected, file) in streams {
        if *redirected == stream {
            return Some(file.as_str());
        }
    }
    None
}

impl<'a, R: Files + Wait> Redirects for Redirected<'a, R> {
    fn redirect(&self, streams: Vec<(StandardStream, String)>) {
        *self.streams.lock(self.below) = streams;
    }

    fn usurp(&self, usurper: Option<(Usurps, String)>) {
        *self.usurper.lock(self.below) = usurper;
    }

    fn faults(&self) -> &Faults {
        self.faults
    }
}

impl<'a, R: Files + Wait> Redirected<'a, R> {
    /// Moves another process's file over the one at a path, if it does that now. It does so once.
    fn come(&self, now: Usurps, path: &str) {
        let mut usurper = self.usurper.lock(self.below);
        if let Some((usurps, file)) = &*usurper {
            if *usurps != now {
                return;
            }
            let _moved = self.below.rename(file.as_str(), path);
            *usurper = None;
        }
    }
}

/// A standard stream that is no file of the story.
const TERMINAL: StandardFile = StandardFile {
    numbers: None,
    is_regular: false,
};

/// What a path names, as a standard stream.
fn standard_at<R: Files>(rt: &R, path: &str) -> StandardFile {
    match rt.metadata(path) {
        Ok(kept) => StandardFile {
            numbers: numbers_in(&kept),
            is_regular: kept.is_file(),
        },
        Err(_) => TERMINAL,
    }
}

impl<'a, R: Files + Wait> StandardStreams for Redirected<'a, R> {
    fn behind(&self, stream: StandardStream) -> StandardFile {
        let streams = self.streams.lock(self.below);
        match path_behind(streams.as_slice(), stream) {
            Some(path) => standard_at(self.below, path),
            None => TERMINAL,
        }
    }
}

impl<'a, R: Alloc<A = Global>> Alloc for Redirected<'a, R> {
    type A = Global;

    fn alloc(&self) -> Global {
        self.below.alloc()
    }
}

impl<'a, R: Wait> Wait for Redirected<'a, R> {}

impl<'a, R: Threads> Threads for Redirected<'a, R> {}

impl<'a, R: Files + Wait> Files for Redirected<'a, R> {
    type File = FaultyFile<'a, R::File>;

    type Dir = R::Dir;

    fn open_file(&self, how: &OpenOptions, path: &str) -> io::Result<FaultyFile<'a, R::File>> {
        let is_device = path.ends_with("device");
        if is_device && how.asks_write() {
            self.faults.pass_write()?;
        }
        self.faults.pass_path()?;
        let file = self.below.open_file(how, path)?;
        if how.asks_create_new() {
            self.faults.note_name();
        }
        let counts = is_device || self.faults.is_everywhere();
        let is_read = !how.asks_write();
        Ok(FaultyFile::new(file, self.faults, counts, is_read))
    }

    fn open_dir(&self, path: &str) -> io::Result<R::Dir> {
        self.below.open_dir(path)
    }

    fn metadata(&self, path: &str) -> io::Result<Metadata> {
        if path.ends_with(".part") {
            self.come(Usurps::AtLook, path);
        }
        self.below.metadata(path)
    }

    fn symlink_metadata(&self, path: &str) -> io::Result<Metadata> {
        self.faults.pass_path()?;
        if self.faults.is_blind() {
            return Err(io::Error::from(io::ErrorKind::NotFound));
        }
        self.below.symlink_metadata(path)
    }

    fn copy(&self, from: &str, to: &str) -> io::Result<u64> {
        self.below.copy(from, to)
    }

    fn rename(&self, from: &str, to: &str) -> io::Result<()> {
        self.below.rename(from, to)
    }

    fn remove_file(&self, path: &str) -> io::Result<()> {
        self.faults.pass_path()?;
        self.faults.note_name();
        self.below.remove_file(path)
    }

    fn hard_link(&self, original: &str, link: &str) -> io::Result<()> {
        self.faults.pass_path()?;
        self.faults.note_name();
        self.come(Usurps::AtLink, original);
        self.below.hard_link(original, link)
    }

    fn create_dir(&self, path: &str) -> io::Result<()> {
        self.below.create_dir(path)
    }

    fn remove_dir(&self, path: &str) -> io::Result<()> {
        self.below.remove_dir(path)
    }

    fn remove_dir_all<B: Allocator>(&self, alloc: B, path: &str) -> io::Result<()> {
        self.below.remove_dir_all(alloc, path)
    }
}
