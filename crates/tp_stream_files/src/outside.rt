//! The files of the system. Each call is noted.
//!
//! Only reading shows that each method here makes the one call that it notes, and makes an interrupted read again: no contract can say what a file
//! takes.

ghost use Rattle.std.specs.Prelude.{◌≡◌, ◌≢◌, ◌≤◌, [], ◌∷◌, ◌++◌, true, length, IfErr, IfOk};
ghost use Rattle.std.specs.IoError.{error_kind};
ghost use Rattle.tp_stream_files.specs.Told.{Opened};

use crate::same::{FileNumbers, numbers_at_path, numbers_in};
use crate::standard::{StandardStream, StandardStreams, regular_behind};
use crate::system::{EndFile, EndFiles, Looks};
use crate::trace::Trace;
use std::fs::{Files, OpenFile, OpenOptions};
use std::io;
use std::io::ErrorKind;
use std::os::unix::fs::FileExt;

/// Opens files of the system.
#[derive(Drop)]
pub struct Outside<'r, R> {
    rt: &'r R,
    trace: Trace,
}

/// An open file of the system.
#[derive(Drop)]
pub struct OutsideFile<F: Drop> {
    file: F,
    trace: Trace,
}

impl<'r, R> Outside<'r, R> {
    /// Begins with no calls.
    pub fn new(rt: &'r R) -> Outside<'r, R>
        ensures { result.trace.told ≡ [] }
    {
        Outside {
            rt,
            trace: Trace::new(),
        }
    }
}

impl<F: Drop> OutsideFile<F> {
    /// Takes a file that was opened at a path, with no other calls made on it.
    pub(crate) fn new(how: &OpenOptions, path: &str, file: F) -> OutsideFile<F>
        ensures { result.trace.told ≡ Opened how.now path.now true ∷ [] }
    {
        OutsideFile {
            file,
            trace: Trace::new().opened(how, path, true),
        }
    }
}

/// Reads bytes of a file from an offset on. Makes an interrupted read again.
fn read_again<F: FileExt>(file: &F, at: u64, out: &mut [u8]) -> io::Result<usize>
    ensures few { IfOk result (λ count. count ≤ length out.new) }
    ensures again { IfErr result (λ error. error_kind error ≢ ErrorKind.Interrupted) }
{
    for _ in 0..u64::MAX {
        match file.read_at(out, at) {
            Err(error) if error.kind() == ErrorKind::Interrupted => {}
            done => return done,
        }
    }
    Err(io::Error::from(ErrorKind::TimedOut))
}

impl<F: FileExt + OpenFile + Drop> EndFile for OutsideFile<F> {
    ghost calls = { λ file. file.trace.told };

    fn measure(&mut self) -> io::Result<u64> {
        let said = self.file.metadata();
        match said {
            Ok(kept) => {
                self.trace = self.trace.measured(kept.len());
                Ok(kept.len())
            }
            Err(error) => {
                self.trace = self.trace.measure_failed();
                Err(error)
            }
        }
    }

    fn read_at(&mut self, at: u64, out: &mut [u8]) -> io::Result<usize> {
        let done = read_again(&self.file, at, out);
        self.trace = match &done {
            Ok(count) => self.trace.has_read(at, &out[..*count]),
            Err(_) => self.trace.read_failed(at),
        };
        done
    }

    fn write_all(&mut self, at: u64, bytes: &[u8]) -> io::Result<()> {
        let done = self.file.write_all_at(bytes, at);
        self.trace = self.trace.wrote(at, bytes, done.is_ok());
        done
    }

    fn sync(&mut self) -> io::Result<()> {
        let done = self.file.sync_all();
        self.trace = self.trace.synced(done.is_ok());
        done
    }

    fn regular_length(&self) -> Option<u64> {
        match self.file.metadata() {
            Ok(kept) if kept.is_file() => Some(kept.len()),
            _ => None,
        }
    }

    fn numbers(&self) -> io::Result<Option<FileNumbers>> {
        Ok(numbers_in(&self.file.metadata()?))
    }
}

/// Syncs a folder of the system.
fn sync_folder<R: Files>(rt: &R, folder: &str) -> io::Result<()> {
    OpenOptions::new().read(true).open(rt, folder)?.sync_all()
}

impl<'r, R: Files<File = F>, F: FileExt + OpenFile + Drop> EndFiles for Outside<'r, R> {
    type File = OutsideFile<F>;

    ghost calls = { λ files. files.trace.told };

    fn open(&mut self, how: &OpenOptions, path: &str) -> io::Result<OutsideFile<F>> {
        let done = how.open(self.rt, path);
        self.trace = self.trace.opened(how, path, done.is_ok());
        Ok(OutsideFile::new(how, path, done?))
    }

    fn sync_folder(&mut self, folder: &str) -> io::Result<()> {
        let done = sync_folder(self.rt, folder);
        self.trace = self.trace.synced_folder(folder, done.is_ok());
        done
    }
}

impl<'r, R: Files + StandardStreams> Looks for Outside<'r, R> {
    fn numbers_at(&self, path: &str) -> Option<FileNumbers> {
        numbers_at_path(self.rt, path)
    }

    fn numbers_behind(&self, stream: StandardStream) -> Option<FileNumbers> {
        regular_behind(self.rt, stream)
    }
}
