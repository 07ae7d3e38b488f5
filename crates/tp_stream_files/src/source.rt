//! What a port's input is read from.

ghost use Rattle.std.specs.Prelude.{◌≡◌, ◌<◌, ◌≤◌, ℕ, List, length, take, Option, None, IfOk};
ghost use Rattle.tp_stream_files.specs.Inputs.{AreFrom, IsBehind, IsLength};

/// Bytes couldn't be read.
#[derive(Clone, Copy)]
pub struct SourceFailed;

/// A port's whole input, from position 0.
pub trait Source {
    /// All of its bytes, if they are known.
    ghost input: { Self → Option (List ℕ) } = { λ _. None };

    /// How many bytes the whole input has; `None` if that isn't known. It is known of a regular file.
    fn length(&self) -> Option<u64>
        ensures { IsLength result (input self.now) };

    /// Whether a read from position `at` would still wait for bytes, after waiting for at most `millis` milliseconds.
    fn would_wait(&mut self, at: u64, millis: u64) -> bool
        ensures { input self.new ≡ input self.old };

    /// Reads bytes from position `at` on into `out`, and answers how many: fewer than `out` has room for if fewer have come, and 0 only at the end.
    /// The position is that of the last read, or one after it.
    fn read(&mut self, at: u64, out: &mut [u8]) -> Result<usize, SourceFailed>
        ensures few { IfOk result (λ count. count ≤ length out.new) }
        ensures same { input self.new ≡ input self.old }
        ensures bytes { IfOk result (λ count. AreFrom (input self.old) at (take count out.new)) }
        ensures end { IfOk result (λ count. count ≡ 0 → 0 < length out.new → IsBehind at (input self.old)) };
}
