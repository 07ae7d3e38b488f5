//! The last bytes that a feed gave, by their positions.

ghost use Rattle.std.specs.Prelude.{◌≡◌, ◌+◌, ◌<◌, ◌≤◌, ◌⊎◌, ◌∷◌, [], ◌++◌, true, length, take, drop, is_err, IfOk, IfSome, OnErr, OnOk};
ghost use Rattle.tp_stream_files.specs.Told.{Gave, GiveFailed};
ghost use Rattle.tp_stream_files.specs.Trace.{GrewAlike, bytes_given, says_end, says_failed};

use crate::SourceFailed;
use crate::feeds::Feed;
use crate::trace::Trace;
use std::alloc::{AllocError, Global};
use tp_model::limits::MAX_HELD;

/// The last bytes that a feed gave. They are kept, since a port may have no room for them yet; those before them are gone. They are in memory of
/// their own, so that they needn't be moved, and the stack needs no room for them.
#[derive(Drop)]
pub(crate) struct Held {
    /// What the feed has given.
    trace: Trace,
    /// The position of the first byte that is kept.
    from: u64,
    count: usize,
    kept: Box<[u8; MAX_HELD]>,
    has_ended: bool,
    has_failed: bool,
    ghost few: { count ≤ length kept.value },
    ghost place: { from + count ≡ length (bytes_given trace.told) },
    ghost bytes: { take count kept.value ≡ drop from (bytes_given trace.told) },
    ghost ended: { has_ended ≡ true → says_end trace.told ≡ true },
    ghost failed: { says_failed trace.told ≡ true → has_failed ≡ true },
}

impl Held {
    /// Begins with no bytes.
    pub(crate) fn new(alloc: Global) -> Result<Held, AllocError>
        ensures { IfOk result (λ held. held.trace.told ≡ []) }
    {
        Ok(Held {
            trace: Trace::new(),
            from: 0,
            count: 0,
            kept: Box::new(alloc, [0u8; MAX_HELD])?,
            has_ended: false,
            has_failed: false,
        })
    }

    /// Whether the byte at position `at` or one after it has come, or no more bytes come.
    pub(crate) fn is_ready(&self, at: u64) -> bool {
        self.has_ended || self.has_failed || self.from.saturating_add(self.count as u64) > at
    }

    /// Gives the position after all bytes that came; `None` if that is above the greatest number.
    pub(crate) fn behind(&self) -> Option<u64>
        ensures { IfSome result (λ behind. behind ≡ length (bytes_given self.now.trace.told)) }
    {
        self.from.checked_add(self.count as u64)
    }

    /// Notes that no more bytes can be counted.
    pub(crate) fn stop(&mut self)
        ensures { self.new.trace.told ≡ self.old.trace.told }
    {
        self.has_failed = true;
    }

    /// Takes what a feed gives next in place of the bytes that are kept. `behind` is the position after these.
    #[tactic(auto, using(crate::proofs::Traces::none_behind))]
    pub(crate) fn take_next<I: Feed>(&mut self, behind: u64, feed: &mut I)
        requires { behind ≡ length (bytes_given self.old.trace.told) }
        ensures { GrewAlike (I.given feed.old) (I.given feed.new) self.old.trace.told self.new.trace.told }
    {
        self.from = behind;
        self.count = 0;
        match feed.next(&mut *self.kept) {
            Ok(count) => self.take_bytes(count),
            Err(SourceFailed) => self.take_failure(),
        }
    }

    /// Takes the bytes that a feed gave: the first `count` of `kept`; 0 says that the feed is at its end. Before that, no kept byte counts.
    #[tactic(auto, using(crate::proofs::Traces::bytes_of_gave, crate::proofs::Traces::says_end_gave, crate::proofs::Traces::says_failed_gave))]
    fn take_bytes(&mut self, count: usize)
        requires few { count ≤ length self.old.kept.value }
        requires none { self.old.count ≡ 0 }
        ensures { self.new.trace.told ≡ self.old.trace.told ++ Gave (take count self.old.kept.value) ∷ [] }
    {
        let kept = self.kept.as_slice();
        self.trace = self.trace.gave(&kept[..count]);
        self.count = count;
        self.has_ended = self.has_ended || count == 0;
    }

    /// Notes that a feed failed.
    #[tactic(auto, using(crate::proofs::Traces::bytes_of_failed, crate::proofs::Traces::says_end_failed))]
    fn take_failure(&mut self)
        ensures { self.new.trace.told ≡ self.old.trace.told ++ GiveFailed ∷ [] }
    {
        self.trace = self.trace.give_failed();
        self.has_failed = true;
    }

    /// Copies the bytes from position `at` on, as many as are kept and `out` has room for; none at the end. Fails if the bytes come before those that
    /// are kept, or haven't come.
    pub(crate) fn copy(&self, at: u64, out: &mut [u8]) -> Result<usize, SourceFailed>
        ensures few { IfOk result (λ count. count ≤ length out.new) }
        ensures bytes { IfOk result (λ count. take count out.new ≡ take count (drop at (bytes_given self.now.trace.told))) }
        ensures none { IfOk result (λ count. count ≡ 0 → 0 < length out.new → says_end self.now.trace.told ≡ true) }
        ensures all { IfOk result (λ count. count ≡ 0 → 0 < length out.new → length (bytes_given self.now.trace.told) ≤ at) }
        ensures failed { says_failed self.now.trace.told ≡ true → is_err result ≡ true }
        ensures front { at < self.now.from → is_err result ≡ true }
    {
        if self.has_failed || at < self.from {
            return Err(SourceFailed);
        }
        let place = at - self.from;
        if place < self.count as u64 {
            let rest = &self.kept[place as usize..self.count];
            let count = rest.len().min(out.len());
            out[..count].copy_from_slice(&rest[..count]);
            return Ok(count);
        }
        if self.has_ended {
            Ok(0)
        } else {
            Err(SourceFailed)
        }
    }
}
