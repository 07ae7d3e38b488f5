//! Writes into a list of bytes.

ghost use Rattle.std.specs.Prelude.{◌≡◌, ◌+◌, ◌%◌, ◌<◌, ◌≤◌, Some, length, slice_range, IsTrue, drop, ◌++◌};
ghost use Rattle.tp_mem.specs.Lower.{from_le_bytes, to_le_bytes, w32, w64, offset, word_offset, set_byte, set_word, stored, is_inside, copied, changed};
ghost use Rattle.tp_mem.specs.After.{changed_after};
ghost use Rattle.tp_mem.specs.Bytes.{byte_changed};
ghost use Rattle.tp_mem.specs.Ranges.{are_inside};

use crate::address::{offset, word_offset};

/// Reads the word at a place.
#[inline(always)]
pub(crate) fn read_word(live: &[u8], at: usize) -> u32
    requires { at + 4 ≤ length live.now }
    ensures { result ≡ from_le_bytes w32 (slice_range live.now at (at + 4)) }
{
    u32::from_le_bytes([live[at], live[at + 1], live[at + 2], live[at + 3]])
}

/// Reads eight bytes at a place, the lowest first.
#[inline(always)]
pub(crate) fn read_eight(live: &[u8], at: usize) -> u64
    requires { at + 8 ≤ length live.now }
    ensures { drop at live.now ≡ to_le_bytes w64 result ++ drop (at + 8) live.now }
{
    let bytes = [
        live[at],
        live[at + 1],
        live[at + 2],
        live[at + 3],
        live[at + 4],
        live[at + 5],
        live[at + 6],
        live[at + 7],
    ];
    u64::from_le_bytes(bytes)
}

/// Writes a byte at a place.
#[inline(always)]
pub(crate) fn put_byte(live: &mut [u8], at: usize, byte: u8)
    requires { at < length live.old }
    ensures { live.new ≡ set_byte live.old at byte }
{
    live[at] = byte;
}

/// Writes a word at a place.
#[inline(always)]
pub(crate) fn put_word(live: &mut [u8], at: usize, word: u32)
    requires { at + 4 ≤ length live.old }
    ensures { live.new ≡ set_word live.old at word }
{
    live[at..at + 4].copy_from_slice(&word.to_le_bytes());
}

/// Writes words that are all inside.
#[inline(always)]
pub(crate) fn put_words(live: &mut [u8], writes: &[(u32, u32)])
    requires aligned { length live.old % 4 ≡ 0 }
    requires inside { IsTrue (are_inside (length live.old) writes.now) }
    ensures { stored live.old writes.now ≡ Some live.new }
{
    for write in writes {
        put_word(live, word_offset(write.0), write.1);
    }
}

/// Copies a block between ranges that are inside.
pub(crate) fn move_block(live: &mut [u8], to: u32, from: u32, count: u32)
    requires to { IsTrue (is_inside live.old to count) }
    requires from { IsTrue (is_inside live.old from count) }
    ensures { copied live.old to from count ≡ Some live.new }
{
    if count > 0 {
        let start = offset(from);
        live.copy_within(start..start + count as usize, offset(to));
    }
}

/// Puts a byte at an address, and then writes words, all of them inside.
pub(crate) fn put_byte_and_words(live: &mut [u8], address: u32, byte: u8, writes: &[(u32, u32)])
    requires aligned { length live.old % 4 ≡ 0 }
    requires byte { offset address < length live.old }
    requires inside { IsTrue (are_inside (length live.old) writes.now) }
    ensures { byte_changed live.old address byte writes.now ≡ Some live.new }
{
    put_byte(live, offset(address), byte);
    put_words(live, writes);
}

/// Copies a block, and then writes words, all of them inside.
#[tactic(auto, using(crate::proofs::Writes::behind_a_word))]
#[inline(always)]
pub(crate) fn move_and_put_words(
    live: &mut [u8],
    to: u32,
    from: u32,
    count: u32,
    writes: &[(u32, u32)],
)
    requires aligned { length live.old % 4 ≡ 0 }
    requires to { IsTrue (is_inside live.old to count) }
    requires from { IsTrue (is_inside live.old from count) }
    requires inside { IsTrue (are_inside (length live.old) writes.now) }
    ensures { changed live.old to from count writes.now ≡ Some live.new }
{
    move_block(live, to, from, count);
    put_words(live, writes);
}

/// Writes a word, then copies a block, and then writes words, all of them inside.
#[tactic(auto, using(crate::proofs::Writes::behind_a_word))]
pub(crate) fn put_and_move(
    live: &mut [u8],
    first: (u32, u32),
    to: u32,
    from: u32,
    count: u32,
    writes: &[(u32, u32)],
)
    requires aligned { length live.old % 4 ≡ 0 }
    requires first { word_offset first.0 < length live.old }
    requires to { IsTrue (is_inside live.old to count) }
    requires from { IsTrue (is_inside live.old from count) }
    requires inside { IsTrue (are_inside (length live.old) writes.now) }
    ensures { changed_after live.old first to from count writes.now ≡ Some live.new }
{
    put_word(live, word_offset(first.0), first.1);
    move_and_put_words(live, to, from, count, writes);
}
