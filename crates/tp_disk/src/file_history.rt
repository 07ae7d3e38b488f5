//! What a device in a file holds by its calls, as only contracts see it.

ghost use Rattle.std.specs.Prelude.{◌≡◌, ℕ, ◌+◌, ◌≤◌, [], ◌++◌, length, is_ok, OnOk, OnErr};
ghost use Rattle.tp_disk.specs.Lower.{Write, Sync, Read, done, Fails, MomentPassed};
ghost use Rattle.tp_disk.specs.FileState.{begins, told_state};
ghost use Rattle.tp_disk.specs.History.{Medium, all_zero};
ghost use Rattle.tp_disk.specs.Reads.{answered};

use crate::disk::DeviceFailed;
use crate::history::History;

/// A device of `size` bytes in a file, with the calls of the device that were made so far. Any other device whose bytes only its calls tell may keep
/// one, too.
#[derive(Drop)]
pub struct FileHistory {
    size: u64,
    history: History,
    ghost whole: { length (told_state size history.told).now.bytes ≡ size },
}

impl FileHistory {
    ghost use Rattle.tp_disk.specs.History.{Medium};
    ghost use Rattle.tp_disk.specs.Noted.{file_reads, file_state};

    /// Begins without a call. What the file holds is the ghost value `medium`.
    pub fn of_file(size: u64) -> FileHistory
        ghost medium: { Medium }
        ensures size { result.size ≡ size }
        ensures state { file_state result ≡ begins medium size }
        ensures reads { file_reads result ≡ [] }
    {
        FileHistory {
            size,
            history: History::of_file(),
        }
    }

    /// Begins without a call. The file holds bytes 00.
    pub fn of_zeros(size: u64) -> FileHistory
        ensures size { result.size ≡ size }
        ensures state { file_state result ≡ begins all_zero size }
        ensures reads { file_reads result ≡ [] }
    {
        FileHistory {
            size,
            history: History::new(),
        }
    }

    /// Counts the device's bytes.
    pub fn size(&self) -> u64
        ensures { result ≡ self.now.size }
    {
        self.size
    }

    /// Notes a read from `at` on that put these bytes into `out`, and how it ended, which is the answer.
    pub fn has_read(
        &mut self,
        at: u64,
        out: &[u8],
        ended: Result<(), DeviceFailed>,
    ) -> Result<(), DeviceFailed>
        ensures ended { result ≡ ended }
        ensures size { self.new.size ≡ self.old.size }
        ensures noted { file_reads self.new ≡ file_reads self.old ++ answered (is_ok result) at out.now (file_state self.old).now.bytes }
        ensures goes { MomentPassed (file_state self.old) (file_state self.new) }
        ensures after { OnOk result ((file_state self.new).now ≡ done Read (file_state self.old).now) }
        ensures failed { OnErr result (Fails Read (file_state self.old) (file_state self.new)) }
    {
        self.history = self.history.has_read(at, out, ended.is_ok());
        ended
    }

    /// Notes that bytes were to be written from `at` on, and how that ended, which is the answer.
    pub fn has_written(
        &mut self,
        at: u64,
        bytes: &[u8],
        ended: Result<(), DeviceFailed>,
    ) -> Result<(), DeviceFailed>
        requires { at + length bytes.now ≤ self.old.size }
        ensures ended { result ≡ ended }
        ensures size { self.new.size ≡ self.old.size }
        ensures unread { file_reads self.new ≡ file_reads self.old }
        ensures goes { MomentPassed (file_state self.old) (file_state self.new) }
        ensures after { OnOk result ((file_state self.new).now ≡ done (Write at bytes.now) (file_state self.old).now) }
        ensures failed { OnErr result (Fails (Write at bytes.now) (file_state self.old) (file_state self.new)) }
    {
        self.history = self.history.has_written(at, bytes, ended.is_ok());
        ended
    }

    /// Notes a sync, and how it ended, which is the answer.
    pub fn has_synced(&mut self, ended: Result<(), DeviceFailed>) -> Result<(), DeviceFailed>
        ensures ended { result ≡ ended }
        ensures size { self.new.size ≡ self.old.size }
        ensures unread { file_reads self.new ≡ file_reads self.old }
        ensures goes { MomentPassed (file_state self.old) (file_state self.new) }
        ensures after { OnOk result ((file_state self.new).now ≡ done Sync (file_state self.old).now) }
        ensures failed { OnErr result (Fails Sync (file_state self.old) (file_state self.new)) }
    {
        self.history = self.history.has_synced_data(ended.is_ok());
        ended
    }
}
