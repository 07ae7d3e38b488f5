//! The bytes of a memory, with nothing beside them.

ghost use Rattle.std.specs.Prelude.{◌≡◌, ◌+◌, ◌%◌, ◌^◌, ◌<◌, ◌≤◌, Some, length, slice_range, IsTrue};
ghost use Rattle.tp_mem.specs.Lower.{from_le_bytes, w32, PAGE_BYTES, offset, word_offset, set_byte, set_word, stored, is_inside, changed};
ghost use Rattle.tp_mem.specs.After.{changed_after};
ghost use Rattle.tp_mem.specs.Bytes.{byte_changed};
ghost use Rattle.tp_mem.specs.Ranges.{are_inside};

use crate::write;
use std::marker::Model;

/// Bytes of whole pages, at most 2^20. A memory keeps its live bytes in this, and lends it to an interpreter.
#[derive(Drop)]
pub struct LiveBytes {
    bytes: Vec<u8>,
}

impl Model for LiveBytes {
    ghost use Rattle.std.specs.Prelude.{◌≡◌, ◌%◌, ◌^◌, ◌≤◌, ℕ, List, length};
    ghost use Rattle.tp_model.specs.declared.limits.TheConstants.{PAGE_BYTES};

    ghost Value = { List ℕ };

    ghost view = { λ m. m.bytes.items };

    ghost invariant = { λ m. (length m.bytes.items ≤ 2 ^ 20) × (length m.bytes.items % PAGE_BYTES ≡ 0) };
}

impl LiveBytes {
    /// Keeps bytes as they are.
    pub(crate) fn new(bytes: Vec<u8>) -> LiveBytes
        requires few { length bytes.items ≤ 2 ^ 20 }
        requires whole { length bytes.items % PAGE_BYTES ≡ 0 }
        ensures { result ≡ bytes.items }
    {
        LiveBytes { bytes }
    }

    /// Lends the bytes to a reader.
    #[inline(always)]
    pub(crate) fn as_slice(&self) -> &[u8]
        ensures value { result.now ≡ self.now }
        ensures few { length self.now ≤ 2 ^ 20 }
        ensures whole { length self.now % PAGE_BYTES ≡ 0 }
    {
        self.bytes.as_slice()
    }

    /// Counts the bytes.
    #[inline(always)]
    pub(crate) fn count(&self) -> usize
        ensures value { result ≡ length self.now }
        ensures few { result ≤ 2 ^ 20 }
        ensures whole { result % PAGE_BYTES ≡ 0 }
    {
        self.bytes.len()
    }

    /// Writes a byte at a place.
    #[inline(always)]
    pub(crate) fn put_byte(&mut self, at: usize, byte: u8)
        requires { at < length self.old }
        ensures value { self.new ≡ set_byte self.old at byte }
        ensures len { length self.new ≡ length self.old }
    {
        write::put_byte(&mut self.bytes, at, byte);
    }

    /// Writes a word at a place.
    #[inline(always)]
    pub(crate) fn put_word(&mut self, at: usize, word: u32)
        requires { at + 4 ≤ length self.old }
        ensures value { self.new ≡ set_word self.old at word }
        ensures len { length self.new ≡ length self.old }
    {
        write::put_word(&mut self.bytes, at, word);
    }

    /// Writes words that are all inside.
    #[inline(always)]
    pub(crate) fn put_words(&mut self, writes: &[(u32, u32)])
        requires { IsTrue (are_inside (length self.old) writes.now) }
        ensures value { stored self.old writes.now ≡ Some self.new }
        ensures len { length self.new ≡ length self.old }
    {
        write::put_words(&mut self.bytes, writes);
    }

    /// Puts a byte at an address, and then writes words, all of them inside.
    pub(crate) fn put_byte_and_words(&mut self, address: u32, byte: u8, writes: &[(u32, u32)])
        requires byte { offset address < length self.old }
        requires inside { IsTrue (are_inside (length self.old) writes.now) }
        ensures value { byte_changed self.old address byte writes.now ≡ Some self.new }
        ensures len { length self.new ≡ length self.old }
    {
        write::put_byte_and_words(&mut self.bytes, address, byte, writes);
    }

    /// Copies a block, and then writes words, all of them inside.
    #[inline(always)]
    pub(crate) fn move_and_put_words(
        &mut self,
        to: u32,
        from: u32,
        count: u32,
        writes: &[(u32, u32)],
    )
        requires to { IsTrue (is_inside self.old to count) }
        requires from { IsTrue (is_inside self.old from count) }
        requires inside { IsTrue (are_inside (length self.old) writes.now) }
        ensures value { changed self.old to from count writes.now ≡ Some self.new }
        ensures len { length self.new ≡ length self.old }
    {
        write::move_and_put_words(&mut self.bytes, to, from, count, writes);
    }

    /// Writes a word, then copies a block, and then writes words, all of them inside.
    pub(crate) fn put_and_move(
        &mut self,
        first: (u32, u32),
        to: u32,
        from: u32,
        count: u32,
        writes: &[(u32, u32)],
    )
        requires first { word_offset first.0 < length self.old }
        requires to { IsTrue (is_inside self.old to count) }
        requires from { IsTrue (is_inside self.old from count) }
        requires inside { IsTrue (are_inside (length self.old) writes.now) }
        ensures value { changed_after self.old first to from count writes.now ≡ Some self.new }
        ensures len { length self.new ≡ length self.old }
    {
        write::put_and_move(&mut self.bytes, first, to, from, count, writes);
    }
}
