//! A feed, by positions.

ghost use Rattle.std.specs.Prelude.{◌≡◌, ◌<◌, ◌≤◌, [], true, length, take, drop, is_err, IfOk};
ghost use Rattle.tp_stream_files.specs.Trace.{GrewAlike, bytes_given, says_end, says_failed};

use crate::SourceFailed;
use crate::feeds::Feed;
use crate::held::Held;
use std::alloc::{AllocError, Global};

/// A port's whole input, from a feed.
#[derive(Drop)]
pub struct Pipe<'a, I> {
    feed: &'a mut I,
    held: Held,
}

impl<'a, I: Feed> Pipe<'a, I> {
    /// Begins with no bytes.
    pub fn new(alloc: Global, feed: &'a mut I) -> Result<Pipe<'a, I>, AllocError>
        ensures { IfOk result (λ pipe. pipe.held.trace.told ≡ []) }
    {
        Ok(Pipe {
            feed,
            held: Held::new(alloc)?,
        })
    }

    /// Takes the next bytes in place of those that are kept.
    fn advance(&mut self)
        ensures { GrewAlike (I.given self.old.feed.now) (I.given self.new.feed.now) self.old.held.trace.told self.new.held.trace.told }
    {
        let Some(behind) = self.held.behind() else {
            self.held.stop();
            return;
        };
        self.held.take_next(behind, self.feed);
    }

    /// Takes bytes until the byte at position `at` is kept, or no more come.
    fn reach(&mut self, at: u64)
        ensures { GrewAlike (I.given self.old.feed.now) (I.given self.new.feed.now) self.old.held.trace.told self.new.held.trace.told }
    {
        for _ in 0..u64::MAX {
            if self.held.is_ready(at) {
                return;
            }
            self.advance();
        }
    }

    /// Whether a read would wait for the byte at position `at`, after waiting at most `millis` milliseconds for the next piece. It skips earlier
    /// bytes: after the first piece of these it waits for no other one.
    pub(crate) fn would_wait_at(&mut self, at: u64, millis: u64) -> bool
        ensures { GrewAlike (I.given self.old.feed.now) (I.given self.new.feed.now) self.old.held.trace.told self.new.held.trace.told }
    {
        let mut left = millis;
        for _ in 0..u64::MAX {
            if self.held.is_ready(at) {
                return false;
            }
            if self.feed.would_wait(left) {
                return true;
            }
            self.advance();
            left = 0;
        }
        false
    }

    /// Reads bytes from position `at` on, and skips earlier ones. It gives what the feed gave at that position, however that was cut into pieces. It
    /// gives none only if the feed has ended before the position, and fails once the feed has failed.
    pub(crate) fn read_from(&mut self, at: u64, out: &mut [u8]) -> Result<usize, SourceFailed>
        ensures grew { GrewAlike (I.given self.old.feed.now) (I.given self.new.feed.now) self.old.held.trace.told self.new.held.trace.told }
        ensures few { IfOk result (λ count. count ≤ length out.new) }
        ensures bytes { IfOk result (λ count. take count out.new ≡ take count (drop at (bytes_given self.new.held.trace.told))) }
        ensures none { IfOk result (λ count. count ≡ 0 → 0 < length out.new → says_end self.new.held.trace.told ≡ true) }
        ensures all { IfOk result (λ count. count ≡ 0 → 0 < length out.new → length (bytes_given self.new.held.trace.told) ≤ at) }
        ensures failed { says_failed self.new.held.trace.told ≡ true → is_err result ≡ true }
    {
        self.reach(at);
        self.held.copy(at, out)
    }
}
