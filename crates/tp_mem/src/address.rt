//! Addresses as places in a list of bytes.

ghost use Rattle.std.specs.Prelude.{◌≡◌, ℕ, ◌^◌, ◌<◌, List, length};
ghost use Rattle.tp_model.specs.Memory.{offset, word_offset, is_inside};
ghost use Rattle.tp_mem.specs.Ranges.{are_inside};

/// The first address of memory.
pub const FIRST_ADDRESS: u32 = 0x8000_0000;

/// Tells how many bytes `address` is from the first one.
#[inline(always)]
pub(crate) fn offset(address: u32) -> usize
    ensures { result ≡ offset address }
{
    address.wrapping_sub(FIRST_ADDRESS) as usize
}

/// Tells where the word of `address` begins, as an offset in bytes.
#[inline(always)]
pub(crate) fn word_offset(address: u32) -> usize
    ensures { result ≡ word_offset address }
{
    offset(address / 4 * 4)
}

/// Whether the `count` bytes from `address` on are inside a memory of `len` bytes.
#[inline(always)]
pub(crate) fn is_inside(len: usize, address: u32, count: u32) -> bool
    requires { len < 2 ^ 32 }
    ensures { (memory : List ℕ) → length memory ≡ len → result ≡ is_inside memory address count }
{
    count == 0 || offset(address) + count as usize <= len
}

/// Whether each write goes to a word inside a memory of `len` bytes.
#[inline(always)]
pub(crate) fn are_inside(len: usize, writes: &[(u32, u32)]) -> bool
    ensures { result ≡ are_inside len writes.now }
{
    writes.iter().all(|write| word_offset(write.0) < len)
}
