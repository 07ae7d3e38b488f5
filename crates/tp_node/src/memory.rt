//! The memory that nodes have.

ghost use Rattle.std.specs.Prelude.{◌≡◌, ◌*◌, ◌≤◌, None, false, length, replicate, min, IfOk};

use std::alloc::{AllocError, Global};
use tp_mem::CowMemory;
use tp_model::limits::PAGE_BYTES;

/// The kind of memory.
pub(crate) type Memory = CowMemory;

/// Makes a memory of `pages` pages that holds `bytes`, with `spare` frames for copies, but no more than it has pages. `AllocError` if
/// memory is out.
pub(crate) fn reserve(
    alloc: Global,
    pages: usize,
    spare: usize,
    bytes: &[u8],
) -> Result<Memory, AllocError>
    requires few { pages ≤ 1024 }
    requires whole { length bytes.now ≡ PAGE_BYTES * pages }
    ensures { IfOk result (λ m. m ≡ record { live = bytes.now; frozen = None; shared = replicate pages false; spare = min spare pages }) }
{
    Memory::new(alloc, pages, spare.min(pages), bytes)
}

/// Makes a memory of `pages` pages from their bytes `live`, which aren't copied, with `spare` frames for copies, but no more than it has
/// pages. `AllocError` if memory is out.
pub(crate) fn take_over(
    alloc: Global,
    pages: usize,
    spare: usize,
    live: Vec<u8>,
) -> Result<Memory, AllocError>
    requires few { pages ≤ 1024 }
    requires whole { length live.items ≡ PAGE_BYTES * pages }
    ensures { IfOk result (λ m. m ≡ record { live = live.items; frozen = None; shared = replicate pages false; spare = min spare pages }) }
{
    Memory::of_bytes(alloc, pages, spare.min(pages), live)
}
