//! Whether a command asks its standard input.

use std::io;
use tp_model::limits::MAX_HELD;
use tp_stream_files::{Feed, SourceFailed};

/// A feed, and whether anybody asked it.
#[derive(Drop)]
pub(crate) struct Heard<F: Drop> {
    pub(crate) feed: F,
    pub(crate) was_asked: bool,
}

impl<F: Feed + Drop> Feed for Heard<F> {
    ghost given = { λ heard. F.given heard.feed };

    fn would_wait(&mut self, millis: u64) -> bool {
        self.was_asked = true;
        self.feed.would_wait(millis)
    }

    fn next(&mut self, out: &mut [u8; MAX_HELD]) -> Result<usize, SourceFailed> {
        self.was_asked = true;
        self.feed.next(out)
    }
}
