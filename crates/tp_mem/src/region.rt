//! The raw region: frames side by side in one block of the allocator.

ghost use Rattle.std.specs.Prelude.{◌≡◌, ◌+◌, ◌<◌, ◌^◌, ℕ, [], length, get_or, set, IfOk};
ghost use Rattle.tp_mem.specs.FreeList.{AreLinked};

use crate::link;
use core::slots::{Lease, Slots, release, reserve};
use std::alloc::{AllocError, Global};
use std::marker::{Model, Send};
use tp_model::limits::PAGE_BYTES;

/// The bytes of a frame.
pub type Frame = [u8; PAGE_BYTES];

/// The frames of a block, which goes back to the allocator when the region is dropped.
pub(crate) struct Region {
    slots: Slots<Frame>,
    lease: Lease<Frame, Global>,
    alloc: Global,
}

impl Model for Region {
    ghost use Rattle.std.specs.Prelude.{◌≡◌, ℕ, List};
    ghost use Rattle.tp_mem.specs.Lower.{slots_items, slots_ptr, slots_len, lease_ptr, lease_len, lease_heap, IsFull, ftrue};

    ghost Value = { List (List ℕ) };

    ghost also_owns = { λ _. ftrue };

    ghost also_shares = { λ _ _ _. ftrue };

    ghost view = { λ r. slots_items r.slots };

    ghost invariant = { λ r. IsFull r.slots × (lease_ptr r.lease ≡ slots_ptr r.slots) × (lease_len r.lease ≡ slots_len r.slots) × (lease_heap r.lease ≡ r.alloc) };
}

// Its places hold bytes, and any thread may free its block.
unsafe impl Send for Region {}

impl Region {
    /// Makes a region of `count` frames. Each leads to the next.
    pub(crate) fn new(alloc: Global, count: usize) -> Result<Region, AllocError>
        requires { count < 2 ^ 32 }
        ensures { IfOk result (λ r. (length r ≡ count) × AreLinked r) }
    {
        let like = Vec::from_elem(alloc, [0; PAGE_BYTES], count)?;
        let (mut slots, lease) = unsafe { reserve(&alloc, &like) }?;
        fill(&mut slots);
        Ok(enclose(slots, lease, alloc))
    }

    /// Counts the frames.
    pub(crate) fn len(&self) -> usize
        ensures { result ≡ length self.now }
    {
        self.slots.len()
    }

    /// Gives the bytes of a frame.
    pub(crate) fn get(&self, index: usize) -> &Frame
        requires { index < length self.now }
        ensures { result.now ≡ get_or self.now index [] }
    {
        self.slots.get(index)
    }

    /// Puts bytes into a frame.
    pub(crate) fn put(&mut self, index: usize, frame: Frame)
        requires { index < length self.old }
        ensures { self.new ≡ set self.old index frame }
    {
        self.slots.put(index, frame);
    }

    /// Puts a byte into a frame.
    pub(crate) fn put_byte(&mut self, index: usize, at: usize, byte: u8)
        requires index { index < length self.old }
        requires at { at < 1024 }
        ensures { self.new ≡ set self.old index (set (get_or self.old index []) at byte) }
    {
        let frame = self.slots.get_mut(index);
        frame[at] = byte;
    }
}

impl Drop for Region {
    fn drop(self) {
        let Region {
            slots,
            lease,
            alloc,
        } = self;
        release(&alloc, slots, lease);
    }
}

ghost use Rattle.core.specs.Mem.Slots.{slots_items, slots_ptr, slots_len, lease_ptr, lease_len, lease_heap, IsFull};

/// Makes a region of full places and the right to free them.
fn enclose(slots: Slots<Frame>, lease: Lease<Frame, Global>, alloc: Global) -> Region
    requires full { IsFull slots }
    requires leased { (lease_ptr lease ≡ slots_ptr slots) × (lease_len lease ≡ slots_len slots) × (lease_heap lease ≡ alloc) }
    ensures { result ≡ slots_items slots }
{
    Region {
        slots,
        lease,
        alloc,
    }
}

/// Fills the places of a region.
fn fill(slots: &mut Slots<Frame>)
    requires { slots_len slots.old < 2 ^ 32 }
    ensures full { IsFull slots.new }
    ensures linked { AreLinked (slots_items slots.new) }
    ensures places { (slots_ptr slots.new ≡ slots_ptr slots.old) × (slots_len slots.new ≡ slots_len slots.old) }
{
    for index in 0..slots.len() {
        slots.put(index, link::to((index as u32).wrapping_add(1)));
    }
}
