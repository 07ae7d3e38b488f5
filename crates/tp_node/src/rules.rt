//! The rules that a node's image keeps.

ghost use Rattle.std.specs.Prelude.{◌≡◌, ◌<◌, ◌^◌, ℕ, List, length};
ghost use Rattle.tp_node.specs.Lower.{list_all, is_under_way, is_out_end, is_in_end, is_memory};

use crate::{InEngine, OutEngine};
use tp_mem::FIRST_ADDRESS;
use tp_model::limits::{MAX_PAGES, MIN_PAGES, PAGE_BYTES};
use tp_model::{InEnd, OutEnd, Transfer};

/// Whether `len` bytes of memory are whole pages, in a number that a node may have.
pub(crate) fn is_memory(len: usize) -> bool
    ensures { (memory : List ℕ) → length memory ≡ len → result ≡ is_memory memory }
{
    let pages = len / PAGE_BYTES;
    len % PAGE_BYTES == 0 && MIN_PAGES <= pages && pages <= MAX_PAGES
}

/// Whether a message under way has a byte left, and all that is left is inside `len` bytes of memory.
fn is_under_way(len: usize, transfer: Transfer) -> bool
    ensures { (memory : List ℕ) → length memory ≡ len → result ≡ is_under_way memory transfer }
{
    let start = transfer.pointer.wrapping_sub(FIRST_ADDRESS) as usize;
    transfer.left >= 1 && start + transfer.left as usize <= len
}

fn is_out_end(len: usize, end: OutEnd) -> bool
    ensures { (memory : List ℕ) → length memory ≡ len → result ≡ is_out_end memory end }
{
    match end {
        OutEnd::Idle => true,
        OutEnd::Waits(transfer) => is_under_way(len, transfer),
    }
}

fn is_in_end(len: usize, end: InEnd) -> bool
    ensures { (memory : List ℕ) → length memory ≡ len → result ≡ is_in_end memory end }
{
    match end {
        InEnd::Idle(_) | InEnd::Enabled(_) => true,
        InEnd::Inputs(transfer) => is_under_way(len, transfer),
    }
}

/// Whether each output end keeps its rule with `len` bytes of memory.
pub(crate) fn are_outputs(len: usize, ends: &[OutEngine]) -> bool
    ensures { (memory : List ℕ) → length memory ≡ len → result ≡ list_all (is_out_end memory) ends.now }
{
    for end in ends {
        if !is_out_end(len, end.end()) {
            return false;
        }
    }
    true
}

/// Whether each input end keeps its rule with `len` bytes of memory.
pub(crate) fn are_inputs(len: usize, ends: &[InEngine]) -> bool
    ensures { (memory : List ℕ) → length memory ≡ len → result ≡ list_all (is_in_end memory) ends.now }
{
    for end in ends {
        if !is_in_end(len, end.end()) {
            return false;
        }
    }
    true
}
