//! The locks of files, which are tried.

ghost use Rattle.std.specs.Prelude.{◌≡◌, []};

use std::fs::{File, TryLockError};
use std::thread::sleep;
use std::time::{Clock, Duration};
use tp_program::Tries;
use tp_stream_files::{Noted, Times};

/// Which lock of a file is taken.
#[derive(Clone, Copy)]
enum Kind {
    /// That of a process that writes it.
    Own,
    /// One that several processes may have, if none writes it.
    Shared,
}

/// Tries the locks of open files. Any answer of the system but "another process has it" says that no other process has it.
///
/// Its method makes the calls that it notes. That is known by reading, and by tests.
#[derive(Drop)]
pub(crate) struct FileTries<'a, R> {
    rt: &'a R,
    kind: Kind,
    answers: Noted,
    pauses: Times,
}

impl<'a, R> FileTries<'a, R> {
    /// No lock was tried yet.
    fn of(rt: &'a R, kind: Kind) -> FileTries<'a, R>
        ensures kind { result.kind ≡ kind }
        ensures answers { result.answers.told ≡ [] }
        ensures pauses { result.pauses.told ≡ [] }
    {
        FileTries {
            rt,
            kind,
            answers: Noted::new(),
            pauses: Times::new(),
        }
    }

    /// Tries the locks of files that are written.
    pub(crate) fn new(rt: &'a R) -> FileTries<'a, R>
        ensures { result.kind ≡ Kind.Own }
    {
        FileTries::of(rt, Kind::Own)
    }

    /// Tries locks that several processes may have, if none writes the file.
    pub(crate) fn shared(rt: &'a R) -> FileTries<'a, R>
        ensures { result.kind ≡ Kind.Shared }
    {
        FileTries::of(rt, Kind::Shared)
    }
}

/// Tries to take a lock of a file.
fn try_lock(file: &File, kind: Kind) -> Result<(), TryLockError> {
    match kind {
        Kind::Own => file.try_lock(),
        Kind::Shared => file.try_lock_shared(),
    }
}

impl<'a, R: Clock> Tries<File> for FileTries<'a, R> {
    ghost answers = { λ tries. tries.answers.told };

    ghost pauses = { λ tries. tries.pauses.told };

    fn is_taken(&mut self, file: &File, pause: Option<u64>) -> bool {
        if let Some(millis) = pause {
            sleep(self.rt, Duration::from_millis(millis));
        }
        let is_taken = matches!(try_lock(file, self.kind), Err(TryLockError::WouldBlock));
        self.answers = self.answers.answered(is_taken);
        self.pauses = self.pauses.answered(pause);
        is_taken
    }
}
