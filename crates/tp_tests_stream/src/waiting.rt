//! A host that waits for the answer to each byte before it hands in the next one.

ghost use Rattle.std.specs.Prelude.{None};

use crate::players::Pieces;
use std::cell::Cell;
use tp_stream::{PutAt, Sink, SinkFault, Source, SourceFailed};

/// A sink that tells how many bytes it was given. It keeps none.
#[derive(Drop)]
pub(crate) struct Answered<'a> {
    answers: &'a Cell<u64>,
}

impl<'a> Answered<'a> {
    /// As many bytes as `answers` says.
    pub(crate) fn of(answers: &'a Cell<u64>) -> Answered<'a> {
        Answered { answers }
    }
}

impl<'a> Sink for Answered<'a> {
    ghost held = { λ _. None };

    fn reach(&self) -> u64 {
        self.answers.get()
    }

    fn length(&self) -> Option<u64> {
        Some(self.answers.get())
    }

    fn settle(&mut self) -> Result<(), SinkFault> {
        Ok(())
    }
}

impl<'a> PutAt for Answered<'a> {
    fn put(&mut self, at: u64, bytes: &[u8]) -> Result<(), SinkFault> {
        if self.answers.get() != at {
            return Err(SinkFault::Failed);
        }
        self.answers.set(at.saturating_add(bytes.len() as u64));
        Ok(())
    }
}

/// A source whose next byte comes once the answer to the one before has come. A read of it earlier, which would wait for ever, fails.
#[derive(Drop)]
pub(crate) struct Asking<'a> {
    pieces: Pieces,
    answers: &'a Cell<u64>,
}

impl<'a> Asking<'a> {
    /// These bytes.
    pub(crate) fn of(pieces: Pieces, answers: &'a Cell<u64>) -> Asking<'a> {
        Asking { pieces, answers }
    }
}

impl<'a> Source for Asking<'a> {
    ghost input = { λ _. None };

    fn length(&self) -> Option<u64> {
        None
    }

    fn would_wait(&mut self, at: u64, _millis: u64) -> bool {
        self.answers.get() < at
    }

    fn read(&mut self, at: u64, out: &mut [u8]) -> Result<usize, SourceFailed> {
        if self.answers.get() < at {
            return Err(SourceFailed);
        }
        self.pieces.read(at, out)
    }
}
