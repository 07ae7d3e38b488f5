//! How the lock of a device's file is tried, and what is answered if another process has it.

ghost use Rattle.std.specs.Prelude.{◌≡◌, ℕ, Bool, List, [], ◌∷◌, ◌++◌, Option, IfErr, is_ok, not};
ghost use Rattle.tp_program.specs.Tries.{IsTriedFor, WasTriedOnce, WasWaitedFor};

use tp_stream_files::Times;

/// How many times a second a device is tried again that another process holds.
const TRIES: u64 = 20;

/// How many milliseconds are between two of them.
const PAUSE: u64 = 1000 / TRIES;

/// How many times it is tried again at least: `status` and `stop` hold a device for a moment, and a script may call them without a pause.
const LEAST: u64 = 5;

/// Tries to take the locks of open files, which are `F`s.
pub trait Tries<F> {
    /// Whether another process had the lock at each try; the first try comes first.
    ghost answers: { Self → List Bool };

    /// How many milliseconds were waited before each try; `None` if it came at once.
    ghost pauses: { Self → List (Option ℕ) };

    /// Waits for that many milliseconds, or not at all, and then tries to take the lock of a file. Answers whether another process has it.
    fn is_taken(&mut self, file: &F, pause: Option<u64>) -> bool
        ensures answer { answers self.new ≡ answers self.old ++ result ∷ [] }
        ensures paused { pauses self.new ≡ pauses self.old ++ pause ∷ [] };
}

/// Says that another process has a device, and how long was waited before each try to take its lock.
#[derive(Drop)]
pub struct InUse {
    waited: Times,
}

/// Takes the lock of a file. While another process has it, it tries again for `seconds` seconds, and `LEAST` times at least; then it fails.
pub fn lock_file<F, T: Tries<F>>(tries: &mut T, file: &F, seconds: u32) -> Result<(), InUse>
    ensures tried { IsTriedFor seconds (is_ok result) (T.answers tries.old) (T.answers tries.new) (T.pauses tries.old) (T.pauses tries.new) }
    ensures vain { IfErr result (WasWaitedFor seconds) }
{
    if !tries.is_taken(file, None) {
        return Ok(());
    }
    let mut waited = Times::new().answered(None);
    for _ in 0..(u64::from(seconds) * TRIES).max(LEAST) {
        if !tries.is_taken(file, Some(PAUSE)) {
            return Ok(());
        }
        waited = waited.answered(Some(PAUSE));
    }
    Err(InUse { waited })
}

/// Takes the lock of a file that was just made. It tries once, and fails if another process has taken the lock first.
pub fn lock_made<F, T: Tries<F>>(tries: &mut T, file: &F) -> Result<(), InUse>
    ensures answer { T.answers tries.new ≡ T.answers tries.old ++ (not (is_ok result)) ∷ [] }
    ensures vain { IfErr result WasTriedOnce }
{
    if tries.is_taken(file, None) {
        let waited = Times::new().answered(None);
        Err(InUse { waited })
    } else {
        Ok(())
    }
}
