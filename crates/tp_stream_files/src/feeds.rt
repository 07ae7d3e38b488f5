//! Bytes that come once, in order.

ghost use Rattle.std.specs.Prelude.{◌≡◌, ◌≤◌, false, List, [], ◌∷◌, ◌++◌, length, IfOk};
ghost use Rattle.std.specs.Io.KnownBytes.{ReadConsumes};
ghost use Rattle.tp_stream_files.specs.Told.{EndTold};
ghost use Rattle.tp_stream_files.specs.Trace.{gave};

use crate::SourceFailed;
use crate::trace::Trace;
use std::io::{ErrorKind, Read};
use tp_model::limits::MAX_HELD;

/// Bytes that come once, in order, such as those of standard input.
pub trait Feed {
    /// What it has given so far, the oldest first.
    ghost given: { Self → List EndTold };

    /// Whether `next` would still wait for bytes, after waiting for them for at most `millis` milliseconds.
    fn would_wait(&mut self, millis: u64) -> bool
        ensures { given self.new ≡ given self.old };

    /// Puts the next bytes that have come into `out`, and answers how many. Waits until there are some; 0 says that it is at the end.
    fn next(&mut self, out: &mut [u8; MAX_HELD]) -> Result<usize, SourceFailed>
        ensures few { IfOk result (λ count. count ≤ length out.new) }
        ensures noted { given self.new ≡ given self.old ++ gave result out.new ∷ [] };
}

/// Reads the next bytes of a reader. Makes an interrupted read again.
pub(crate) fn read_some<I: Read>(reader: &mut I, out: &mut [u8]) -> Result<usize, SourceFailed>
    ensures few { IfOk result (λ count. count ≤ length out.new) }
    ensures bytes { ReadConsumes (I.remaining reader.old) (I.remaining reader.new) result out.new }
{
    for _ in 0..u64::MAX {
        match reader.read(out) {
            Ok(count) => return Ok(count),
            Err(error) if error.kind() == ErrorKind::Interrupted => {}
            Err(_) => return Err(SourceFailed),
        }
    }
    Err(SourceFailed)
}

/// A reader that never waits for bytes, such as a file's.
#[derive(Drop)]
pub struct Plain<I: Drop> {
    reader: I,
    trace: Trace,
}

impl<I: Drop> Plain<I> {
    /// Gives the bytes of a reader.
    pub fn new(reader: I) -> Plain<I>
        ensures reader { result.reader ≡ reader }
        ensures none { result.trace.told ≡ [] }
    {
        Plain {
            reader,
            trace: Trace::new(),
        }
    }
}

impl<I: Read + Drop> Feed for Plain<I> {
    ghost given = { λ feed. feed.trace.told };

    fn would_wait(&mut self, _millis: u64) -> bool
        ensures same { self.new ≡ self.old }
        ensures there { result ≡ false }
    {
        false
    }

    fn next(&mut self, out: &mut [u8; MAX_HELD]) -> Result<usize, SourceFailed>
        ensures few { IfOk result (λ count. count ≤ length out.new) }
        ensures noted { self.new.trace.told ≡ self.old.trace.told ++ gave result out.new ∷ [] }
        ensures bytes { ReadConsumes (I.remaining self.old.reader) (I.remaining self.new.reader) result out.new }
    {
        let done = read_some(&mut self.reader, out);
        self.trace = match done {
            Ok(count) => self.trace.gave(&out[..count]),
            Err(SourceFailed) => self.trace.give_failed(),
        };
        done
    }
}
