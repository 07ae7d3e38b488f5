//! The system, with the files that its standard streams are.

use std::alloc::{Allocator, Global};
use std::fs::{Files, Metadata, OpenOptions};
use std::io;
use std::sync::Wait;
use std::thread::Threads;
use tp_stream_files::{StandardFile, StandardStream, StandardStreams};

/// The system. Which files its standard streams are was asked as the program began.
#[derive(Drop)]
pub(crate) struct System<'a, R> {
    rt: &'a R,
    input: StandardFile,
    output: StandardFile,
    error: StandardFile,
}

impl<'a, R> System<'a, R> {
    /// The system, in which the standard streams are those files.
    pub(crate) fn new(
        rt: &'a R,
        input: StandardFile,
        output: StandardFile,
        error: StandardFile,
    ) -> System<'a, R> {
        System {
            rt,
            input,
            output,
            error,
        }
    }
}

impl<'a, R> StandardStreams for System<'a, R> {
    fn behind(&self, stream: StandardStream) -> StandardFile {
        match stream {
            StandardStream::In => self.input,
            StandardStream::Out => self.output,
            StandardStream::Error => self.error,
        }
    }
}

impl<'a, R: Alloc<A = Global>> Alloc for System<'a, R> {
    type A = Global;

    fn alloc(&self) -> Global {
        self.rt.alloc()
    }
}

impl<'a, R: Wait> Wait for System<'a, R> {}

impl<'a, R: Threads> Threads for System<'a, R> {}

impl<'a, R: Files> Files for System<'a, R> {
    type File = R::File;

    type Dir = R::Dir;

    fn open_file(&self, how: &OpenOptions, path: &str) -> io::Result<R::File> {
        self.rt.open_file(how, path)
    }

    fn open_dir(&self, path: &str) -> io::Result<R::Dir> {
        self.rt.open_dir(path)
    }

    fn metadata(&self, path: &str) -> io::Result<Metadata> {
        self.rt.metadata(path)
    }

    fn symlink_metadata(&self, path: &str) -> io::Result<Metadata> {
        self.rt.symlink_metadata(path)
    }

    fn copy(&self, from: &str, to: &str) -> io::Result<u64> {
        self.rt.copy(from, to)
    }

    fn rename(&self, from: &str, to: &str) -> io::Result<()> {
        self.rt.rename(from, to)
    }

    fn remove_file(&self, path: &str) -> io::Result<()> {
        self.rt.remove_file(path)
    }

    fn hard_link(&self, original: &str, link: &str) -> io::Result<()> {
        self.rt.hard_link(original, link)
    }

    fn create_dir(&self, path: &str) -> io::Result<()> {
        self.rt.create_dir(path)
    }

    fn remove_dir(&self, path: &str) -> io::Result<()> {
        self.rt.remove_dir(path)
    }

    fn remove_dir_all<B: Allocator>(&self, alloc: B, path: &str) -> io::Result<()> {
        self.rt.remove_dir_all(alloc, path)
    }
}
