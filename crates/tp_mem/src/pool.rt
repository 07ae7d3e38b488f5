//! A pool of frames.

ghost use Rattle.std.specs.Prelude.{◌≡◌, ℕ, ◌+◌, ◌-◌, ◌<◌, ◌^◌, ◌↔◌, List, Some, None, length, replicate, set, IsTrue, IsOk, IfOk, OnErr};
ghost use Rattle.tp_model.specs.Frames.{frame, owners_of, bytes_of, IsHeld, with_frame, free_in};

use crate::id::FrameId;
use crate::link;
use crate::region::{Frame, Region};
use std::alloc::{AllocError, Global};
use std::marker::Model;

/// No frame is free.
#[derive(Clone, Copy)]
pub struct PoolEmpty;

/// Frames of one raw region. Each is free, or held by its owners, and a free one carries the free list in itself.
#[derive(Drop)]
pub struct FramePool {
    owners: Vec<u16>,
    region: Region,
    first: u32,
    free: usize,
}

impl Model for FramePool {
    ghost use Rattle.tp_model.specs.Frames.{Frames};
    ghost use Rattle.tp_mem.specs.FreeList.{frames_of, IsPool};

    ghost Value = { Frames };

    ghost view = { λ p. frames_of p.owners.items p.region };

    ghost invariant = { λ p. IsPool p.owners.items p.region p.first p.free };
}

impl FramePool {
    /// Makes a pool of `count` free frames. `AllocError` if memory is out.
    pub fn new(alloc: Global, count: usize) -> Result<FramePool, AllocError>
        requires { count < 2 ^ 32 }
        ensures { IfOk result (λ p. p ≡ replicate count None) }
    {
        let owners = Vec::from_elem(alloc, 0, count)?;
        let region = Region::new(alloc, count)?;
        Ok(FramePool {
            owners,
            region,
            first: 0,
            free: count,
        })
    }

    /// Takes a free frame, whose bytes may be any. `PoolEmpty` if none is free.
    pub fn take(&mut self) -> Result<FrameId, PoolEmpty>
        ensures ok { IfOk result (λ id. (id < length self.old) × (frame self.old id ≡ None) × ((bytes : List ℕ) × (length bytes ≡ 1024) × (self.new ≡ with_frame self.old id 1 bytes))) }
        ensures err { OnErr result (self.new ≡ self.old) }
        ensures exact { IsOk result ↔ (0 < free_in self.old) }
    {
        if self.free == 0 {
            return Err(PoolEmpty);
        }
        let number = self.first;
        let index = number as usize;
        self.first = link::next(self.region.get(index));
        self.owners[index] = 1;
        self.free -= 1;
        Ok(FrameId::new(number))
    }

    /// Gives a held frame one more owner.
    pub fn share(&mut self, id: &FrameId) -> FrameId
        requires held { IsHeld self.old id.now }
        requires few { owners_of self.old id.now < 65535 }
        ensures id { result ≡ id.now }
        ensures owners { self.new ≡ with_frame self.old id.now (owners_of self.old id.now + 1) (bytes_of self.old id.now) }
    {
        let index = id.number() as usize;
        self.owners[index] += 1;
        FrameId::new(id.number())
    }

    /// Takes an owner from a held frame. With its last owner gone, the frame is free.
    pub fn give_back(&mut self, id: FrameId)
        requires held { IsHeld self.old id }
        ensures { self.new ≡ with_frame self.old id (owners_of self.old id - 1) (bytes_of self.old id) }
    {
        let number = id.number();
        let index = number as usize;
        self.owners[index] -= 1;
        if self.owners[index] == 0 {
            self.region.put(index, link::to(self.first));
            self.first = number;
            self.free += 1;
        }
    }

    /// Gives the bytes of a held frame.
    pub fn bytes(&self, id: &FrameId) -> &Frame
        requires held { IsHeld self.now id.now }
        ensures bytes { result.now ≡ bytes_of self.now id.now }
        ensures len { length result.now ≡ 1024 }
    {
        link::sized(self.region.get(id.number() as usize))
    }

    /// Writes a byte into a frame with one owner.
    pub fn write(&mut self, id: &FrameId, at: usize, byte: u8)
        requires single { owners_of self.old id.now ≡ 1 }
        requires inside { at < 1024 }
        ensures { self.new ≡ with_frame self.old id.now 1 (set (bytes_of self.old id.now) at byte) }
    {
        self.region.put_byte(id.number() as usize, at, byte);
    }

    /// Fills a frame with one owner.
    pub fn put(&mut self, id: &FrameId, bytes: &Frame)
        requires single { owners_of self.old id.now ≡ 1 }
        ensures { self.new ≡ with_frame self.old id.now 1 bytes.now }
    {
        self.region.put(id.number() as usize, *bytes);
    }

    /// Whether a frame has one owner.
    pub fn is_single(&self, id: &FrameId) -> bool
        requires held { IsHeld self.now id.now }
        ensures { IsTrue result ↔ (owners_of self.now id.now ≡ 1) }
    {
        self.owners[id.number() as usize] == 1
    }

    /// Counts the free frames.
    pub fn free(&self) -> usize
        ensures { result ≡ free_in self.now }
    {
        self.free
    }
}
