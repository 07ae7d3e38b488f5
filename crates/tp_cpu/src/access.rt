//! Reads and writes of memory, as parts of a step.

ghost use Rattle.std.specs.Prelude.{◌≡◌, [], ◌∷◌, ◌++◌};
ghost use Rattle.tp_cpu.specs.Lower.{byte_at, word_at, stored, byte_stored, copied, changed, word_ranges, block_ranges, kept_after};
ghost use Rattle.tp_cpu.specs.Ends.{Finds, Writes};

use crate::undone::{BAD_ADDRESS, Undone};
use tp_mem::{Mem, WriteFault};

/// Reads the word at `address`. `BadAddress` if it is outside memory.
#[inline(always)]
pub fn load<M: Mem>(mem: &M, address: u32) -> Result<u32, Undone>
    ensures { Finds (word_at (M.bytes mem.now) address) result }
{
    match mem.read_word(address) {
        None => Err(BAD_ADDRESS),
        Some(word) => Ok(word),
    }
}

/// Writes the word at `address`. `BadAddress` if it is outside memory, and `NoFrame` if a frame is missing.
#[inline(always)]
pub fn store<M: Mem>(mem: &mut M, address: u32, word: u32) -> Result<(), Undone>
    ensures written { Writes (stored (M.bytes mem.old) ((address, word) ∷ [])) (word_ranges ((address, word) ∷ [])) (M.kept mem.old) (M.bytes mem.old) result (M.bytes mem.new) }
    ensures kept { M.kept mem.new ≡ kept_after result (M.kept mem.old) (word_ranges ((address, word) ∷ [])) }
{
    match mem.write_word(address, word) {
        Ok(()) => Ok(()),
        Err(WriteFault::Outside) => Err(BAD_ADDRESS),
        Err(WriteFault::NoFrame) => Err(Undone::NoFrame),
    }
}

/// Writes words, one after another, or none: `BadAddress` if one is outside memory, and `NoFrame` if a frame is missing.
#[inline(always)]
pub fn store_all<M: Mem>(mem: &mut M, writes: &[(u32, u32)]) -> Result<(), Undone>
    ensures written { Writes (stored (M.bytes mem.old) writes.now) (word_ranges writes.now) (M.kept mem.old) (M.bytes mem.old) result (M.bytes mem.new) }
    ensures kept { M.kept mem.new ≡ kept_after result (M.kept mem.old) (word_ranges writes.now) }
{
    match mem.write_words(writes) {
        Ok(()) => Ok(()),
        Err(WriteFault::Outside) => Err(BAD_ADDRESS),
        Err(WriteFault::NoFrame) => Err(Undone::NoFrame),
    }
}

/// Copies `count` bytes, all read before the first is written, and then writes words. `BadAddress` if any is outside memory, and `NoFrame`
/// if a frame is missing.
#[inline(always)]
pub fn change<M: Mem>(
    mem: &mut M,
    to: u32,
    from: u32,
    count: u32,
    writes: &[(u32, u32)],
) -> Result<(), Undone>
    ensures written { Writes (changed (M.bytes mem.old) to from count writes.now) (block_ranges to count ++ word_ranges writes.now) (M.kept mem.old) (M.bytes mem.old) result (M.bytes mem.new) }
    ensures kept { M.kept mem.new ≡ kept_after result (M.kept mem.old) (block_ranges to count ++ word_ranges writes.now) }
{
    match mem.change(to, from, count, writes) {
        Ok(()) => Ok(()),
        Err(WriteFault::Outside) => Err(BAD_ADDRESS),
        Err(WriteFault::NoFrame) => Err(Undone::NoFrame),
    }
}
