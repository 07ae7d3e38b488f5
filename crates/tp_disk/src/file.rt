//! A device in a file of the operating system.

ghost use Rattle.std.specs.Prelude.{◌≡◌, ◌+◌, ◌≤◌, [], ◌∷◌, ◌++◌, length, is_ok, IfOk, OnOk, OnErr};
ghost use Rattle.tp_disk.specs.Lower.{Write, Sync, Read, done, Fails, MomentPassed};
ghost use Rattle.tp_disk.specs.FileState.{begins};
ghost use Rattle.tp_disk.specs.History.{Measures, Medium, Reads, SyncsData, Writes};
ghost use Rattle.tp_disk.specs.Noted.{file_reads, file_state};
ghost use Rattle.tp_disk.specs.Reads.{answered};

use crate::disk::DeviceFailed;
use crate::file_history::FileHistory;
use crate::raw::RawDisk;
use crate::system::SystemFile;
use std::io;

/// A file that doesn't count its failures. Each call makes exactly one call of the system, and succeeds only if that did. Its length never
/// changes, so a sync forces the bytes alone.
#[derive(Drop)]
pub struct RawFile<F: SystemFile + Drop> {
    file: F,
    noted: FileHistory,
    failure: Option<io::Error>,
}

/// Gives the device's answer to the system's, and keeps why it failed.
pub(crate) fn answer(
    done: io::Result<()>,
    failure: &mut Option<io::Error>,
) -> Result<(), DeviceFailed>
    ensures { is_ok result ≡ is_ok done }
{
    match done {
        Ok(()) => Ok(()),
        Err(error) => {
            *failure = Some(error);
            Err(DeviceFailed)
        }
    }
}

impl<F: SystemFile + Drop> RawFile<F> {
    /// Makes the device in an open file; its size is the file's. What it holds is the ghost value `medium`. Fails if the system
    /// doesn't tell the length.
    pub fn new(mut file: F) -> io::Result<RawFile<F>>
        ghost medium: { Medium }
        ensures measured { IfOk result (λ raw. F.calls raw.file ≡ F.calls file ++ Measures raw.noted.size ∷ []) }
        ensures state { IfOk result (λ raw. file_state raw.noted ≡ begins medium raw.noted.size) }
        ensures reads { IfOk result (λ raw. file_reads raw.noted ≡ []) }
    {
        let size = file.measure()?;
        Ok(RawFile {
            file,
            noted: FileHistory::of_file(size),
            failure: None,
        })
    }

    /// Gives what the system said of the last call that failed; `None` if none has.
    pub fn failure(&self) -> Option<&io::Error> {
        self.failure.as_ref()
    }
}

impl<F: SystemFile + Drop> RawDisk for RawFile<F> {
    ghost size_of = { λ d. d.noted.size };

    ghost state = { λ d. file_state d.noted };

    ghost reads = { λ d. file_reads d.noted };

    fn size(&self) -> u64 {
        self.noted.size()
    }

    fn read(&mut self, at: u64, out: &mut [u8]) -> Result<(), DeviceFailed>
        ensures size { self.new.noted.size ≡ self.old.noted.size }
        ensures noted { file_reads self.new.noted ≡ file_reads self.old.noted ++ answered (is_ok result) at out.new (file_state self.old.noted).now.bytes }
        ensures goes { MomentPassed (file_state self.old.noted) (file_state self.new.noted) }
        ensures after { OnOk result ((file_state self.new.noted).now ≡ done Read (file_state self.old.noted).now) }
        ensures failed { OnErr result (Fails Read (file_state self.old.noted) (file_state self.new.noted)) }
        ensures called { F.calls self.new.file ≡ F.calls self.old.file ++ Reads at out.new (is_ok result) ∷ [] }
    {
        let ended = answer(self.file.read_all(at, out), &mut self.failure);
        self.noted.has_read(at, out, ended)
    }

    fn write_at(&mut self, at: u64, bytes: &[u8]) -> Result<(), DeviceFailed>
        requires { at + length bytes.now ≤ self.old.noted.size }
        ensures size { self.new.noted.size ≡ self.old.noted.size }
        ensures unread { file_reads self.new.noted ≡ file_reads self.old.noted }
        ensures goes { MomentPassed (file_state self.old.noted) (file_state self.new.noted) }
        ensures after { OnOk result ((file_state self.new.noted).now ≡ done (Write at bytes.now) (file_state self.old.noted).now) }
        ensures failed { OnErr result (Fails (Write at bytes.now) (file_state self.old.noted) (file_state self.new.noted)) }
        ensures called { F.calls self.new.file ≡ F.calls self.old.file ++ Writes at bytes.now (is_ok result) ∷ [] }
    {
        let ended = answer(self.file.write_all(at, bytes), &mut self.failure);
        self.noted.has_written(at, bytes, ended)
    }

    fn sync(&mut self) -> Result<(), DeviceFailed>
        ensures size { self.new.noted.size ≡ self.old.noted.size }
        ensures unread { file_reads self.new.noted ≡ file_reads self.old.noted }
        ensures goes { MomentPassed (file_state self.old.noted) (file_state self.new.noted) }
        ensures after { OnOk result ((file_state self.new.noted).now ≡ done Sync (file_state self.old.noted).now) }
        ensures failed { OnErr result (Fails Sync (file_state self.old.noted) (file_state self.new.noted)) }
        ensures called { F.calls self.new.file ≡ F.calls self.old.file ++ SyncsData (is_ok result) ∷ [] }
    {
        let ended = answer(self.file.sync_data(), &mut self.failure);
        self.noted.has_synced(ended)
    }

    ghost whole = { λ d. d.noted.whole };
}
