//! The system's calls on the files of streams.

ghost use Rattle.std.specs.Prelude.{◌≡◌, ◌≢◌, ◌≤◌, List, [], ◌∷◌, ◌++◌, true, length, is_ok, IfErr, IfOk};
ghost use Rattle.std.specs.IoError.{error_kind};
ghost use Rattle.tp_stream_files.specs.Told.{EndTold, Opened, SyncedFolder, Synced, Wrote};
ghost use Rattle.tp_stream_files.specs.Trace.{measured, read};

use crate::same::FileNumbers;
use crate::standard::StandardStream;
use std::fs::OpenOptions;
use std::io;
use std::io::ErrorKind;

/// An open file for an output or input. No call on it truncates the file.
pub trait EndFile {
    /// The calls that were made on it, the oldest first. The first one opened it.
    ghost calls: { Self → List EndTold };

    /// How many bytes it has.
    fn measure(&mut self) -> io::Result<u64>
        ensures { calls self.new ≡ calls self.old ++ measured result ∷ [] };

    /// Reads bytes from offset `at` on into `out`, and answers how many: fewer than `out` has room for if the system gives fewer, 0 at the end. Makes
    /// an interrupted read again.
    fn read_at(&mut self, at: u64, out: &mut [u8]) -> io::Result<usize>
        ensures few { IfOk result (λ count. count ≤ length out.new) }
        ensures again { IfErr result (λ error. error_kind error ≢ ErrorKind.Interrupted) }
        ensures noted { calls self.new ≡ calls self.old ++ read at result out.new ∷ [] };

    /// Writes over what is there. Succeeds only if all bytes were written.
    fn write_all(&mut self, at: u64, bytes: &[u8]) -> io::Result<()>
        ensures { calls self.new ≡ calls self.old ++ Wrote at bytes.now (is_ok result) ∷ [] };

    /// Makes the system force what was written to the device below.
    fn sync(&mut self) -> io::Result<()>
        ensures { calls self.new ≡ calls self.old ++ Synced (is_ok result) ∷ [] };

    /// How many bytes it has; `None` if it isn't a regular file, or the system doesn't tell. It checks anew each time.
    fn regular_length(&self) -> Option<u64>;

    /// The numbers by which the system tells this file from all others; `None` if it tells none.
    fn numbers(&self) -> io::Result<Option<FileNumbers>>;
}

/// Opens files.
pub trait EndFiles {
    type File: EndFile + Drop;

    /// The calls that were made on it, the oldest first.
    ghost calls: { Self → List EndTold };

    /// Opens the file at a path. No other call was made on it yet.
    fn open(&mut self, how: &OpenOptions, path: &str) -> io::Result<Self::File>
        ensures noted { calls self.new ≡ calls self.old ++ Opened how.now path.now (is_ok result) ∷ [] }
        ensures fresh { IfOk result (λ file. Self.File.calls file ≡ Opened how.now path.now true ∷ []) };

    /// Syncs a folder, so that a name made in it lasts.
    fn sync_folder(&mut self, folder: &str) -> io::Result<()>
        ensures { calls self.new ≡ calls self.old ++ SyncedFolder folder.now (is_ok result) ∷ [] };
}

/// Tells which file a path names, and which file a standard stream is. It checks anew each time.
pub trait Looks {
    /// The numbers of the file that a path names; `None` if there is no file, or the system tells none.
    fn numbers_at(&self, path: &str) -> Option<FileNumbers>;

    /// The numbers of the regular file that a standard stream comes from or goes to; `None` for a terminal or a pipe.
    fn numbers_behind(&self, stream: StandardStream) -> Option<FileNumbers>;
}
