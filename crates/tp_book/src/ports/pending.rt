//! The bytes that a port holds for its line.

ghost use Rattle.std.specs.Prelude.{◌≡◌, ◌+◌, ◌<◌, ◌≤◌, [], ◌∷◌, ◌++◌, IfOk, OnOk, length, drop, vec_len};

use crate::ports::port::drop_first;
use std::alloc::{AllocError, Global};
use std::marker::Model;
use tp_model::limits::MAX_HELD;

/// Bytes with room for all that a port may hold. Taking the first one off moves no others, but once in [`MAX_HELD`] times: those that were
/// taken off stay before the others until then.
#[derive(Drop)]
pub(crate) struct Pending {
    bytes: Vec<u8>,
    gone: usize,
}

impl Model for Pending {
    ghost use Rattle.std.specs.Prelude.{ℕ, List, ◌<◌, ◌≤◌, ◌*◌, drop, vec_len, vec_capacity};
    ghost use Rattle.tp_model.specs.declared.limits.TheConstants.{MAX_HELD};

    ghost Value = { List ℕ };

    ghost view = { λ p. drop p.gone p.bytes.items };

    ghost invariant = { λ p. (p.gone ≤ vec_len p.bytes) × (p.gone < MAX_HELD) × (2 * MAX_HELD ≤ vec_capacity p.bytes) };
}

impl Pending {
    /// Makes one without bytes. `AllocError` if memory is out.
    pub(crate) fn new(alloc: Global) -> Result<Pending, AllocError>
        ensures { IfOk result (λ pending. pending ≡ []) }
    {
        Ok(Pending {
            bytes: Vec::with_capacity(alloc, 2 * MAX_HELD)?,
            gone: 0,
        })
    }

    /// Puts bytes after the others. `AllocError` if memory is out.
    pub(crate) fn extend(&mut self, bytes: &[u8]) -> Result<(), AllocError>
        ensures { OnOk result (self.new ≡ self.old ++ bytes.now) }
    {
        self.bytes.extend_from_slice(bytes)
    }

    /// Puts a byte, for which there is room, after the others.
    pub(crate) fn push(&mut self, byte: u8)
        requires { length self.old < MAX_HELD }
        ensures { self.new ≡ self.old ++ byte ∷ [] }
    {
        self.bytes.push_reserved(byte);
    }

    /// Takes the first byte off. There is one.
    pub(crate) fn take_off(&mut self)
        requires { 0 < length self.old }
        ensures { self.new ≡ drop 1 self.old }
    {
        self.gone += 1;
        if self.gone == MAX_HELD {
            drop_first(&mut self.bytes, self.gone);
            self.gone = 0;
        }
    }

    /// Gives the bytes, the first one first.
    pub(crate) fn as_slice(&self) -> &[u8]
        ensures value { result.now ≡ self.now }
        ensures len { length result.now ≡ length self.now }
    {
        &self.bytes[self.gone..]
    }
}
