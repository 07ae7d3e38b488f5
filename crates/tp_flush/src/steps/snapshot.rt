//! The flusher begins a snapshot.

ghost use Rattle.std.specs.Prelude.{◌≡◌, IfErr};
ghost use Rattle.tp_flush.specs.Refused.{BegunIn, IsBeginRefusal};

use crate::flusher::Flusher;
use std::alloc::Global;
use std::sync::Wait;
use tp_book::Refusal;
use tp_disk::Disk;
use tp_shared::{Locked, Naming, Shared, Sights};

/// What the book answered as a snapshot was to begin, and the book before and after that.
#[derive(Drop)]
pub struct Begun<J: Naming> {
    pub answer: Result<(), Refusal>,
    pub seen: Sights<J>,
}

impl<J: Naming> Begun<J> {
    /// Gives what the book answered.
    pub fn answer(&self) -> Result<(), Refusal>
        ensures { result ≡ self.now.answer }
    {
        self.answer
    }
}

/// Begins a snapshot, once the book's lock is held.
fn begin<J: Naming>(held: &mut Locked<J>, alloc: Global) -> Begun<J>
    ensures refused { IfErr result.answer IsBeginRefusal }
    ensures begun { BegunIn J.start result.seen result.answer }
{
    held.known();
    let mut seen = Sights::new();
    held.show(&mut seen);
    let answer = held.begin_snapshot(alloc);
    held.show(&mut seen);
    Begun { answer, seen }
}

impl<J: Naming, D: Disk> Flusher<J, D> {
    /// Begins a snapshot under the book's lock: the host records, and each node is then asked to. It fails if one runs, the store is
    /// broken, no generation is left, or memory is out, in this order. The book is seen before and after that.
    pub fn snapshot<R: Wait>(&self, rt: &R, alloc: Global, shared: &Shared<J>) -> Begun<J>
        ensures refused { IfErr result.answer IsBeginRefusal }
        ensures begun { BegunIn J.start result.seen result.answer }
    {
        let mut held = shared.book().lock(rt);
        begin(&mut held, alloc)
    }
}
