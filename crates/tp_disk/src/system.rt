//! The system's calls on an open file.

ghost use Rattle.std.specs.Prelude.{◌≡◌, List, [], ◌∷◌, ◌++◌, is_ok, IfOk};
ghost use Rattle.tp_disk.specs.History.{FileCall, Measures, Reads, Resizes, Syncs, SyncsData, Writes};

use crate::history::History;
use std::fs::OpenFile;
use std::io;
use std::os::unix::fs::FileExt;

/// An open file, as a device uses it.
pub trait SystemFile {
    /// The calls of the system that were made on it, the oldest first.
    ghost calls: { Self → List FileCall };

    /// Asks how many bytes it has.
    fn measure(&mut self) -> io::Result<u64>
        ensures { IfOk result (λ length. calls self.new ≡ calls self.old ++ Measures length ∷ []) };

    /// Gives it `length` bytes: those after them go, and new ones are 0.
    fn resize(&mut self, length: u64) -> io::Result<()>
        ensures { calls self.new ≡ calls self.old ++ Resizes length (is_ok result) ∷ [] };

    /// Fills `out` with the bytes from `at` on. Succeeds only if all of them came.
    fn read_all(&mut self, at: u64, out: &mut [u8]) -> io::Result<()>
        ensures { calls self.new ≡ calls self.old ++ Reads at out.new (is_ok result) ∷ [] };

    /// Writes over the bytes from `at` on. Succeeds only if all bytes went.
    fn write_all(&mut self, at: u64, bytes: &[u8]) -> io::Result<()>
        ensures { calls self.new ≡ calls self.old ++ Writes at bytes.now (is_ok result) ∷ [] };

    /// Has the system force what was written to the device below, with the file's length and all else that the system keeps of it.
    fn sync(&mut self) -> io::Result<()>
        ensures { calls self.new ≡ calls self.old ++ Syncs (is_ok result) ∷ [] };

    /// Has the system force what was written to the device below, with what is needed to read it. When it was written need not last.
    fn sync_data(&mut self) -> io::Result<()>
        ensures { calls self.new ≡ calls self.old ++ SyncsData (is_ok result) ∷ [] };
}

/// A file of the system, with a list of its calls that only contracts see.
///
/// That each method here makes the one call that it notes is known by reading alone: no contract can say what a file takes.
#[derive(Drop)]
pub struct NotedFile<F: Drop> {
    file: F,
    history: History,
}

impl<F: Drop> NotedFile<F> {
    /// Takes a file without any call so far.
    pub fn new(file: F) -> NotedFile<F>
        ensures { result.history.told.calls ≡ [] }
    {
        NotedFile {
            file,
            history: History::new(),
        }
    }
}

impl<F: FileExt + OpenFile + Drop> SystemFile for NotedFile<F> {
    ghost calls = { λ file. file.history.told.calls };

    fn measure(&mut self) -> io::Result<u64> {
        let length = self.file.metadata()?.len();
        self.history = self.history.measured(length);
        Ok(length)
    }

    fn resize(&mut self, length: u64) -> io::Result<()> {
        let done = self.file.set_len(length);
        self.history = self.history.resized(length, done.is_ok());
        done
    }

    fn read_all(&mut self, at: u64, out: &mut [u8]) -> io::Result<()> {
        let done = self.file.read_exact_at(out, at);
        self.history = self.history.has_read(at, out, done.is_ok());
        done
    }

    fn write_all(&mut self, at: u64, bytes: &[u8]) -> io::Result<()> {
        let done = self.file.write_all_at(bytes, at);
        self.history = self.history.has_written(at, bytes, done.is_ok());
        done
    }

    fn sync(&mut self) -> io::Result<()> {
        let done = self.file.sync_all();
        self.history = self.history.has_synced(done.is_ok());
        done
    }

    fn sync_data(&mut self) -> io::Result<()> {
        let done = self.file.sync_data();
        self.history = self.history.has_synced_data(done.is_ok());
        done
    }
}
