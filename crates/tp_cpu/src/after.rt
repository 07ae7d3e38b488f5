//! Reads and writes after a first word that is to be stored. Nothing is stored before everything is known to be inside memory. Reads answer
//! what they would after the first word, and one call makes all writes.

ghost use Rattle.std.specs.Prelude.{◌≡◌, [], ◌∷◌, ◌++◌, Some};
ghost use Rattle.tp_cpu.specs.Lower.{word_offset, word_ranges, block_ranges, kept_after};
ghost use Rattle.tp_cpu.specs.After.{word_after, stored_after, changed_behind};
ghost use Rattle.tp_cpu.specs.AfterWrites.{first_ranges};
ghost use Rattle.tp_cpu.specs.Ends.{Finds, Writes};

use crate::access::{change, load, store_all};
use crate::undone::{BAD_ADDRESS, Undone};
use tp_mem::{Mem, WriteFault};

/// Reads a word as it is once the first word is stored.
#[inline(always)]
pub(crate) fn load_after<M: Mem>(
    mem: &M,
    first: Option<(u32, u32)>,
    address: u32,
) -> Result<u32, Undone>
    ensures { Finds (word_after first address (M.bytes mem.now)) result }
{
    match first {
        None => load(mem, address),
        Some((at, word)) => load_behind(mem, at, word, address),
    }
}

fn load_behind<M: Mem>(mem: &M, at: u32, word: u32, address: u32) -> Result<u32, Undone>
    ensures { Finds (word_after (Some (at, word)) address (M.bytes mem.now)) result }
{
    // Memory has whole words: its length says so.
    let _len = mem.len();
    let _old = load(mem, at)?;
    if address / 4 == at / 4 {
        return Ok(word);
    }
    load(mem, address)
}

/// Writes the first word, and then others.
#[inline(always)]
pub(crate) fn store_after<M: Mem>(
    mem: &mut M,
    first: Option<(u32, u32)>,
    writes: &[(u32, u32)],
) -> Result<(), Undone>
    ensures written { Writes (stored_after first writes.now (M.bytes mem.old)) (first_ranges first ++ word_ranges writes.now) (M.kept mem.old) (M.bytes mem.old) result (M.bytes mem.new) }
    ensures kept { M.kept mem.new ≡ kept_after result (M.kept mem.old) (first_ranges first ++ word_ranges writes.now) }
{
    match first {
        None => store_all(mem, writes),
        Some(first) => change_behind(mem, first, 0, 0, 0, writes),
    }
}

/// Writes the first word, copies a block, and then writes words.
#[inline(always)]
pub(crate) fn change_after<M: Mem>(
    mem: &mut M,
    first: Option<(u32, u32)>,
    to: u32,
    from: u32,
    count: u32,
    writes: &[(u32, u32)],
) -> Result<(), Undone>
    ensures written { Writes (changed_behind first to from count writes.now (M.bytes mem.old)) (first_ranges first ++ (block_ranges to count ++ word_ranges writes.now)) (M.kept mem.old) (M.bytes mem.old) result (M.bytes mem.new) }
    ensures kept { M.kept mem.new ≡ kept_after result (M.kept mem.old) (first_ranges first ++ (block_ranges to count ++ word_ranges writes.now)) }
{
    match first {
        None => change(mem, to, from, count, writes),
        Some(first) => change_behind(mem, first, to, from, count, writes),
    }
}

fn change_behind<M: Mem>(
    mem: &mut M,
    first: (u32, u32),
    to: u32,
    from: u32,
    count: u32,
    writes: &[(u32, u32)],
) -> Result<(), Undone>
    ensures written { Writes (changed_behind (Some first) to from count writes.now (M.bytes mem.old)) (word_ranges (first ∷ []) ++ (block_ranges to count ++ word_ranges writes.now)) (M.kept mem.old) (M.bytes mem.old) result (M.bytes mem.new) }
    ensures kept { M.kept mem.new ≡ kept_after result (M.kept mem.old) (word_ranges (first ∷ []) ++ (block_ranges to count ++ word_ranges writes.now)) }
{
    match mem.change_after(first, to, from, count, writes) {
        Ok(()) => Ok(()),
        Err(WriteFault::Outside) => Err(BAD_ADDRESS),
        Err(WriteFault::NoFrame) => Err(Undone::NoFrame),
    }
}
