//! The table of the copies of pages, each in a frame.

ghost use Rattle.std.specs.Prelude.{◌≡◌, ◌+◌, ◌*◌, ◌≤◌, None, length, replicate, IfOk};
ghost use Rattle.tp_mem.specs.Lower.{ForSome, owners_of, free_in};
ghost use Rattle.tp_mem.specs.Contents.{page_of};
ghost use Rattle.tp_mem.specs.Copies.{AreCopies, copied_in, without_copy};

use crate::id::FrameId;
use crate::pool::FramePool;
use crate::region::Frame;
use std::alloc::{AllocError, Global};
use tp_model::limits::PAGE_BYTES;

/// Gives the bytes of a page.
pub(crate) fn page_at(live: &[u8], page: usize) -> &Frame
    requires { PAGE_BYTES * page + PAGE_BYTES ≤ length live.now }
    ensures value { result.now ≡ page_of live.now page }
    ensures len { length result.now ≡ PAGE_BYTES }
{
    let behind = &live[PAGE_BYTES * page..];
    let Some(bytes) = behind.first_chunk::<PAGE_BYTES>() else {
        unreachable!()
    };
    bytes
}

/// Makes a table of no copies. `AllocError` if memory is out.
pub(crate) fn no_copies(alloc: Global, pages: usize) -> Result<Vec<Option<FrameId>>, AllocError>
    ensures { IfOk result (λ v. v.items ≡ replicate pages None) }
{
    let mut copies = Vec::with_capacity(alloc, pages)?;
    for page in 0..pages {
        copies.push_reserved(None);
    }
    Ok(copies)
}

/// Gives the frame of a copy back, if there is one.
fn give_copy(copy: Option<FrameId>, pool: &mut FramePool)
    requires { ForSome copy (λ id. owners_of pool.old id ≡ 1) }
    ensures { pool.new ≡ without_copy pool.old copy }
{
    if let Some(id) = copy {
        pool.give_back(id);
    }
}

/// Gives the frames of all copies back.
pub(crate) fn let_go(copies: &mut [Option<FrameId>], pool: &mut FramePool)
    requires { AreCopies pool.old copies.old }
    ensures gone { copied_in copies.new ≡ 0 }
    ensures free { free_in pool.new ≡ free_in pool.old + copied_in copies.old }
{
    for page in 0..copies.len() {
        let copy = copies[page].take();
        give_copy(copy, pool);
    }
}
