//! What has happened to a device, as only contracts see it.

ghost use Rattle.std.specs.Prelude.{◌≡◌, ◌+◌, [], ◌∷◌, ◌++◌};
ghost use Rattle.std.specs.Borrow.{ftrue};
ghost use Rattle.tp_disk.specs.History.{DeviceTold, Medium, nothing_told, with_call, Measures, Reads, Resizes, Syncs, SyncsData, Writes};

use std::marker::Model;

/// A history without bytes: only contracts see it, and no call reads it.
#[derive(Drop)]
pub struct History {
    pub ghost told: { DeviceTold },
}

impl Model for History {
    ghost also_owns = { λ _. ftrue };
}

// It has no bytes and owns nothing.
unsafe impl Send for History {}

impl History {
    ghost use Rattle.tp_disk.specs.History.{DeviceTold, Medium};

    /// Gives the ghost value `told`, which a contract names by what is lent as `_value`. It does nothing.
    pub(crate) fn of<T>(_value: &T) -> History
        ghost told: { DeviceTold }
        ensures { result.told ≡ told }
    {
        History {}
    }

    /// Makes the history of a device to which nothing has happened.
    pub(crate) fn new() -> History
        ensures { result.told ≡ nothing_told }
    {
        History::of(&())
    }

    /// Makes the history of a file to which nothing has happened, and which holds the ghost value `medium`.
    pub(crate) fn of_file() -> History
        ghost medium: { Medium }
        ensures { result.told ≡ record nothing_told { medium = medium } }
    {
        History::of(&())
    }

    /// Counts one more call that failed.
    pub(crate) fn failed(&self) -> History
        ensures { result.told ≡ record self.now.told { failures = self.now.told.failures + 1 } }
    {
        History::of(self)
    }

    /// Adds a past moment, at which the device held `bytes`.
    pub(crate) fn later(&self, bytes: &[u8]) -> History
        ensures { result.told ≡ record self.now.told { past = self.now.told.past ++ record { bytes = bytes.now; unsynced = self.now.told.unsynced } ∷ [] } }
    {
        History::of(&(self, bytes))
    }

    /// Adds a range that isn't synced.
    pub(crate) fn wrote(&self, at: u64, count: u64) -> History
        ensures { result.told ≡ record self.now.told { unsynced = self.now.told.unsynced ++ (at, count) ∷ [] } }
    {
        History::of(&(self, at, count))
    }

    /// Notes that everything is synced.
    pub(crate) fn synced(&self) -> History
        ensures { result.told ≡ record self.now.told { unsynced = [] } }
    {
        History::of(self)
    }

    /// Notes that the system said that the file has `length` bytes.
    pub(crate) fn measured(&self, length: u64) -> History
        ensures { result.told ≡ with_call self.now.told (Measures length) }
    {
        History::of(&(self, length))
    }

    /// Notes that the system was asked to give the file `length` bytes.
    pub(crate) fn resized(&self, length: u64, ok: bool) -> History
        ensures { result.told ≡ with_call self.now.told (Resizes length ok) }
    {
        History::of(&(self, length, ok))
    }

    /// Notes that the system was asked for bytes from `at` on, and gave `came`.
    pub(crate) fn has_read(&self, at: u64, came: &[u8], ok: bool) -> History
        ensures { result.told ≡ with_call self.now.told (Reads at came.now ok) }
    {
        History::of(&(self, at, came, ok))
    }

    /// Notes that the system was given bytes to write.
    pub(crate) fn has_written(&self, at: u64, bytes: &[u8], ok: bool) -> History
        ensures { result.told ≡ with_call self.now.told (Writes at bytes.now ok) }
    {
        History::of(&(self, at, bytes, ok))
    }

    /// Notes that the system was asked to sync.
    pub(crate) fn has_synced(&self, ok: bool) -> History
        ensures { result.told ≡ with_call self.now.told (Syncs ok) }
    {
        History::of(&(self, ok))
    }

    /// Notes that the system was asked to sync the bytes.
    pub(crate) fn has_synced_data(&self, ok: bool) -> History
        ensures { result.told ≡ with_call self.now.told (SyncsData ok) }
    {
        History::of(&(self, ok))
    }
}
