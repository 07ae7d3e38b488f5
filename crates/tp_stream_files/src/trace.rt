//! The calls that were made, as only contracts see them.

ghost use Rattle.std.specs.Prelude.{◌≡◌, List, [], ◌∷◌, ◌++◌};
ghost use Rattle.std.specs.Borrow.{ftrue};
ghost use Rattle.tp_stream_files.specs.Told.{EndTold, Opened, SyncedFolder, Measured, MeasureFailed, HasRead, ReadFailed, Wrote, Synced, Gave, GiveFailed};

use std::fs::OpenOptions;
use std::marker::Model;

/// A list of calls that takes no bytes. Contracts see it, and code can't read it.
#[derive(Drop)]
pub struct Trace {
    pub ghost told: { List EndTold },
}

impl Model for Trace {
    ghost also_owns = { λ _. ftrue };
}

impl Trace {
    /// Gives the ghost value `told`, for which a contract uses `_value`. It does nothing.
    pub(crate) fn of<T>(_value: &T) -> Trace
        ghost told: { List EndTold }
        ensures { result.told ≡ told }
    {
        Trace {}
    }

    /// Begins with no calls.
    pub fn new() -> Trace
        ensures { result.told ≡ [] }
    {
        Trace::of(&())
    }

    /// Notes that a file was opened, or wasn't.
    pub fn opened(&self, how: &OpenOptions, path: &str, ok: bool) -> Trace
        ensures { result.told ≡ self.now.told ++ Opened how.now path.now ok ∷ [] }
    {
        Trace::of(&(self, how, path, ok))
    }

    /// Notes that a folder was to be synced.
    pub fn synced_folder(&self, path: &str, ok: bool) -> Trace
        ensures { result.told ≡ self.now.told ++ SyncedFolder path.now ok ∷ [] }
    {
        Trace::of(&(self, path, ok))
    }

    /// Notes a file's length.
    pub fn measured(&self, size: u64) -> Trace
        ensures { result.told ≡ self.now.told ++ Measured size ∷ [] }
    {
        Trace::of(&(self, size))
    }

    /// Notes that a file's length wasn't told.
    pub fn measure_failed(&self) -> Trace
        ensures { result.told ≡ self.now.told ++ MeasureFailed ∷ [] }
    {
        Trace::of(self)
    }

    /// Notes that bytes were read from an offset on.
    pub fn has_read(&self, at: u64, came: &[u8]) -> Trace
        ensures { result.told ≡ self.now.told ++ HasRead at came.now ∷ [] }
    {
        Trace::of(&(self, at, came))
    }

    /// Notes that no bytes could be read from an offset on.
    pub fn read_failed(&self, at: u64) -> Trace
        ensures { result.told ≡ self.now.told ++ ReadFailed at ∷ [] }
    {
        Trace::of(&(self, at))
    }

    /// Notes that bytes were to be written from an offset on.
    pub fn wrote(&self, at: u64, bytes: &[u8], ok: bool) -> Trace
        ensures { result.told ≡ self.now.told ++ Wrote at bytes.now ok ∷ [] }
    {
        Trace::of(&(self, at, bytes, ok))
    }

    /// Notes that a file was to be synced.
    pub fn synced(&self, ok: bool) -> Trace
        ensures { result.told ≡ self.now.told ++ Synced ok ∷ [] }
    {
        Trace::of(&(self, ok))
    }

    /// Notes that a feed gave bytes; none at its end.
    pub fn gave(&self, bytes: &[u8]) -> Trace
        ensures { result.told ≡ self.now.told ++ Gave bytes.now ∷ [] }
    {
        Trace::of(&(self, bytes))
    }

    /// Notes that a feed failed.
    pub fn give_failed(&self) -> Trace
        ensures { result.told ≡ self.now.told ++ GiveFailed ∷ [] }
    {
        Trace::of(self)
    }
}
