//! A port's input, which is read piece by piece.

ghost use Rattle.std.specs.Prelude.{◌≡◌, ◌⊎◌, ◌<◌, ◌≤◌, length, take, true, false, Ok, Some, None, is_some, IfSome, IfNone, IfOk};
ghost use Rattle.tp_stream_files.specs.Inputs.{AreFrom, EndsThere, HasAtLeast, IsLength, is_over};

use crate::source::{Source, SourceFailed};
use std::marker::Model;

/// A port's whole input and its source. It knows the position of its end, once that was found, and whether the port had no room for more.
#[derive(Drop)]
pub struct Input<I: Source> {
    port: u8,
    source: I,
    ended: Option<u64>,
    is_blocked: bool,
    pub ghost end: { EndsThere ended (I.input source) },
}

impl<I: Source> Input<I> {
    /// Makes the input of the port `port` from a source.
    pub fn new(port: u8, source: I) -> Input<I>
        ensures port { result.port ≡ port }
        ensures source { result.source ≡ source }
        ensures over { (result.ended ≡ None) × (result.is_blocked ≡ false) }
    {
        Input {
            port,
            source,
            ended: None,
            is_blocked: false,
        }
    }

    /// Gives the port.
    pub fn port(&self) -> u8
        ensures { result ≡ self.now.port }
    {
        self.port
    }

    /// How many bytes the input has, if that is fewer than the `accepted` ones that its port has accepted; else `None`.
    pub fn shortage(&self, accepted: u64) -> Option<u64>
        ensures some { IfSome result (λ has. IsLength (Some has) (I.input self.now.source) × (has < accepted)) }
        ensures none { IfNone result (HasAtLeast accepted (I.input self.now.source)) }
    {
        match self.source.length() {
            Some(has) if has < accepted => Some(has),
            _ => None,
        }
    }

    /// Whether the input has no more bytes that its port may take. If its end was found, it has no byte at that position or after it.
    pub fn is_over(&self) -> bool
        ensures { result ≡ is_over self.now.ended self.now.is_blocked }
    {
        self.ended.is_some() || self.is_blocked
    }

    /// Whether a read would still wait for bytes, after waiting for at most `millis` milliseconds, if the port has accepted the bytes up to `at`.
    /// After the end no read waits.
    #[tactic(auto, using(crate::proofs::Read::ends_still))]
    pub fn would_wait(&mut self, at: u64, millis: u64) -> bool
        ensures same { (self.new.port ≡ self.old.port) × (I.input self.new.source ≡ I.input self.old.source) }
        ensures over { (self.new.ended ≡ self.old.ended) × (self.new.is_blocked ≡ self.old.is_blocked) }
        ensures behind { IfSome self.old.ended (λ _. result ≡ false) }
    {
        self.ended.is_none() && self.source.would_wait(at, millis)
    }

    /// Notes whether the port has no room for more.
    pub fn block(&mut self, is_blocked: bool)
        ensures same { (self.new.port ≡ self.old.port) × (I.input self.new.source ≡ I.input self.old.source) }
        ensures over { (self.new.ended ≡ self.old.ended) × (self.new.is_blocked ≡ is_blocked) }
    {
        self.is_blocked = is_blocked;
    }

    /// Reads bytes from position `at` on into `out`, and answers how many. 0 says that `out` is empty or that this is the end; it keeps the end's
    /// position.
    #[tactic(auto, using(crate::proofs::Read::none_from, crate::proofs::Read::ends_still, crate::proofs::Read::ends_here))]
    pub fn read(&mut self, at: u64, out: &mut [u8]) -> Result<usize, SourceFailed>
        ensures few { IfOk result (λ count. count ≤ length out.new) }
        ensures same { (self.new.port ≡ self.old.port) × (I.input self.new.source ≡ I.input self.old.source) }
        ensures bytes { IfOk result (λ count. AreFrom (I.input self.old.source) at (take count out.new)) }
        ensures end { IfOk result (λ count. count ≡ 0 → 0 < length out.new → is_some self.new.ended ≡ true) }
        ensures ended { (self.new.ended ≡ self.old.ended) ⊎ ((result ≡ Ok 0) × (self.new.ended ≡ Some at)) }
        ensures blocked { self.new.is_blocked ≡ self.old.is_blocked }
        ensures behind { IfSome self.old.ended (λ _. (result ≡ Ok 0) × (self.new.source ≡ self.old.source)) }
    {
        if out.is_empty() || self.ended.is_some() {
            return Ok(0);
        }
        let count = self.source.read(at, out)?;
        if count == 0 {
            self.ended = Some(at);
        }
        Ok(count)
    }
}
