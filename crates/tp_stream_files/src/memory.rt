//! A sink in memory, for tests. One of its calls may fail.

ghost use Rattle.std.specs.Prelude.{◌≡◌, ◌≤◌, ℕ, List, [], ◌++◌, length, take, true, is_ok, Option, None, Some, IfErr, OnOk, OnErr};
ghost use Rattle.tp_stream_files.specs.Failing.{calls_behind, goes_on};
ghost use Rattle.tp_stream_files.specs.Held.{HasLength, HasPut, HasReach, IsSafe, KeepsBytes, KeepsFront, Reaches};

use crate::sink::{PutAt, Sink, SinkFault};
use std::alloc::Global;

/// Bytes in memory. Putting bytes drops those after them.
#[derive(Drop)]
pub struct MemSink {
    bytes: Vec<u8>,
    safe: u64,
    /// How many calls succeed before one fails. With `None` no call fails.
    calls: Option<u32>,
}

impl MemSink {
    /// Makes a sink that has `bytes`, all of them safe.
    pub fn new(bytes: Vec<u8>) -> MemSink
        ensures { result ≡ record { bytes = bytes; safe = length bytes.items; calls = None } }
    {
        let safe = bytes.len() as u64;
        MemSink {
            bytes,
            safe,
            calls: None,
        }
    }

    /// Makes a sink without bytes.
    pub fn empty(alloc: Global) -> MemSink
        ensures { (result.bytes.items ≡ []) × (result.safe ≡ 0) × (result.calls ≡ None) }
    {
        MemSink::new(Vec::new(alloc))
    }

    /// Gives a sink with these bytes that fails one call, after `calls` calls.
    pub fn failing(self, calls: u32) -> MemSink
        ensures { result ≡ record self { calls = Some calls } }
    {
        MemSink {
            calls: Some(calls),
            ..self
        }
    }

    /// Gives its bytes.
    pub fn bytes(&self) -> &[u8]
        ensures { result.now ≡ self.now.bytes.items }
    {
        &self.bytes
    }

    // Whether a call succeeds.
    fn goes(&mut self) -> bool
        ensures goes { result ≡ goes_on self.old.calls }
        ensures left { self.new ≡ record self.old { calls = calls_behind self.old.calls } }
    {
        match self.calls {
            Some(0) => {
                self.calls = None;
                false
            }
            Some(left) => {
                self.calls = Some(left - 1);
                true
            }
            None => true,
        }
    }

    // Puts bytes after the first `at`, and drops those after them.
    fn put_behind(&mut self, at: u64, bytes: &[u8]) -> Result<(), SinkFault>
        requires safe { at ≤ self.old.safe }
        requires there { at ≤ length self.old.bytes.items }
        ensures put { OnOk result (self.new.bytes.items ≡ take at self.old.bytes.items ++ bytes.now) }
        ensures failed { OnErr result (self.new.bytes.items ≡ take at self.old.bytes.items) }
        ensures fault { IfErr result (λ fault. fault ≡ SinkFault.Failed) }
        ensures safe { self.new.safe ≡ at }
        ensures left { self.new.calls ≡ self.old.calls }
    {
        self.safe = at;
        self.bytes.truncate(at as usize);
        match self.bytes.extend_from_slice(bytes) {
            Ok(()) => Ok(()),
            Err(_) => Err(SinkFault::Failed),
        }
    }
}

impl Sink for MemSink {
    ghost held = { λ s. Some (record { bytes = s.bytes.items; safe = s.safe }) };

    fn reach(&self) -> u64 {
        self.safe.min(self.bytes.len() as u64)
    }

    fn length(&self) -> Option<u64> {
        Some(self.bytes.len() as u64)
    }

    fn settle(&mut self) -> Result<(), SinkFault>
        ensures safe { OnOk result (IsSafe (Some (record { bytes = self.new.bytes.items; safe = self.new.safe }))) }
        ensures bytes { KeepsBytes (Some (record { bytes = self.old.bytes.items; safe = self.old.safe })) (Some (record { bytes = self.new.bytes.items; safe = self.new.safe })) }
        ensures path { let none : Option (List ℕ) = None in none ≡ none }
        ensures port { let none : Option ℕ = None in none ≡ none }
        ensures goes { is_ok result ≡ goes_on self.old.calls }
        ensures fault { IfErr result (λ fault. fault ≡ SinkFault.Failed) }
        ensures left { self.new.calls ≡ calls_behind self.old.calls }
    {
        if !self.goes() {
            return Err(SinkFault::Failed);
        }
        self.safe = self.safe.max(self.bytes.len() as u64);
        Ok(())
    }
}

impl PutAt for MemSink {
    fn put(&mut self, at: u64, bytes: &[u8]) -> Result<(), SinkFault>
        requires { Reaches at (Some (record { bytes = self.old.bytes.items; safe = self.old.safe })) }
        ensures put { OnOk result (HasPut at bytes.now (Some (record { bytes = self.old.bytes.items; safe = self.old.safe })) (Some (record { bytes = self.new.bytes.items; safe = self.new.safe }))) }
        ensures front { KeepsFront at (Some (record { bytes = self.old.bytes.items; safe = self.old.safe })) (Some (record { bytes = self.new.bytes.items; safe = self.new.safe })) }
        ensures path { let none : Option (List ℕ) = None in none ≡ none }
        ensures port { let none : Option ℕ = None in none ≡ none }
        ensures goes { OnOk result (goes_on self.old.calls ≡ true) }
        ensures fault { IfErr result (λ fault. fault ≡ SinkFault.Failed) }
        ensures left { self.new.calls ≡ calls_behind self.old.calls }
    {
        if self.goes() {
            return self.put_behind(at, bytes);
        }
        let _part = self.put_behind(at, &bytes[..bytes.len() / 2]);
        Err(SinkFault::Failed)
    }
}
