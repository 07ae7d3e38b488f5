//! The sources of the program: a file, or standard input.

ghost use Rattle.std.specs.Prelude.{◌≡◌, ◌<◌, ◌≤◌, ℕ, List, Option, None, length, take, IfOk};
ghost use Rattle.tp_stream_files.specs.Inputs.{AreFrom, IsBehind, IsLength};

use crate::feeds::Feed;
use crate::pipes::Pipe;
use crate::system::EndFile;
use crate::{Source, SourceFailed};

/// A source of the program.
#[derive(Drop)]
pub enum AnySource<'a, F: Drop, I> {
    File(F),
    In(Pipe<'a, I>),
}

impl<'a, F: EndFile + Drop, I: Feed> Source for AnySource<'a, F, I> {
    ghost use Rattle.tp_stream_files.specs.Any.{IsUnknownOfPipes, WasAsked, WasRead};

    ghost input = { λ _. None };

    fn length(&self) -> Option<u64>
        ensures known { IsLength result None }
        ensures piped { IsUnknownOfPipes result self.now }
    {
        match self {
            AnySource::File(file) => file.regular_length(),
            AnySource::In(_) => None,
        }
    }

    fn would_wait(&mut self, at: u64, millis: u64) -> bool
        ensures same { let none : Option (List ℕ) = None in none ≡ none }
        ensures asked { WasAsked I.given result self.old self.new }
    {
        match self {
            AnySource::File(_) => false,
            AnySource::In(pipe) => pipe.would_wait_at(at, millis),
        }
    }

    fn read(&mut self, at: u64, out: &mut [u8]) -> Result<usize, SourceFailed>
        ensures few { IfOk result (λ count. count ≤ length out.new) }
        ensures same { let none : Option (List ℕ) = None in none ≡ none }
        ensures bytes { IfOk result (λ count. AreFrom None at (take count out.new)) }
        ensures end { IfOk result (λ count. count ≡ 0 → 0 < length out.new → IsBehind at None) }
        ensures asked { WasRead F.calls I.given at result out.new self.old self.new }
    {
        match self {
            AnySource::File(file) => match file.read_at(at, out) {
                Ok(count) => Ok(count),
                Err(_) => Err(SourceFailed),
            },
            AnySource::In(pipe) => pipe.read_from(at, out),
        }
    }
}
