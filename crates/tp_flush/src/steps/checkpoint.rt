//! What the flusher does while a snapshot runs.

ghost use Rattle.std.specs.Prelude.{◌≡◌, ℕ, true, false, length, IfOk};
ghost use Rattle.tp_flush.specs.Lower.{Resting, keeps_pages};
ghost use Rattle.tp_flush.specs.Flushing.{FlushedOn};
ghost use Rattle.tp_flush.specs.Ends.{Checkpointed, switched_of};
ghost use Rattle.tp_flush.specs.Images.{ImagedIn, LookedIn};
ghost use Rattle.tp_flush.specs.Unswitched.{WhyUnswitched};

use crate::fault::FlushFault;
use crate::flusher::Flusher;
use crate::imaged::Images;
use crate::unswitched::Unswitched;
use std::alloc::Global;
use std::sync::Wait;
use tp_disk::Disk;
use tp_shared::{Gate, Locked, Look, Naming, Shared, Sights};

/// What a turn did for the snapshot that runs: what became of its images, whether the areas were switched, and why not.
#[derive(Clone, Copy)]
pub(crate) struct Checkpoint {
    pub(crate) images: Images,
    pub(crate) switched: bool,
    pub(crate) unswitched: Option<Unswitched>,
}

/// Reads the state of the snapshot, once the book's lock is held. `None` if no snapshot runs; then no node is read. The book is seen.
fn look_under<J: Naming>(held: &mut Locked<J>, looked: &mut Sights<J>) -> Option<Look>
    ensures { LookedIn (length J.start.nodes) result looked.old looked.new }
{
    held.known();
    held.show(looked);
    let book = held.book();
    book.known();
    if !book.recorded(book.nodes()) {
        return None;
    }
    Some(held.look())
}

/// Takes the book's lock, and reads the state of the snapshot under it.
fn look<J: Naming, R: Wait>(rt: &R, shared: &Shared<J>, looked: &mut Sights<J>) -> Option<Look>
    ensures { LookedIn (length J.start.nodes) result looked.old looked.new }
{
    let mut held = shared.book().lock(rt);
    look_under(&mut held, looked)
}

impl<J: Naming, D: Disk> Flusher<J, D> {
    /// Copies the snapshot that runs. It closes the other area's gate and copies the frozen images there. Once all are out and the cut is
    /// whole, it switches to that area. Answers what it did; the book in which it found the snapshot was seen. While none runs, it takes no
    /// node's lock.
    pub(crate) fn checkpoint<R: Wait, G: Gate>(
        &mut self,
        rt: &R,
        alloc: Global,
        shared: &Shared<J>,
        gate: &G,
        looked: &mut Sights<J>,
    ) -> Result<Checkpoint, FlushFault>
        requires rests { self.old.world.at ≡ Resting }
        ensures checkpointed { Checkpointed (switched_of result) self.old self.new }
        ensures imaged { IfOk result (λ done. done.switched ≡ false → ImagedIn (length J.start.nodes) done.images looked.old looked.new self.old self.new) }
        ensures gone { IfOk result (λ done. done.switched ≡ true → (i : ℕ) → keeps_pages self.new.frozen i ≡ false) }
        ensures unswitched { IfOk result (λ done. done.switched ≡ false → WhyUnswitched done.unswitched done.images self.new) }
        ensures goes { FlushedOn J.formatted J.before self.old self.new }
    {
        self.known();
        let Some(look) = look(rt, shared, looked) else {
            return Ok(Checkpoint {
                images: Images::NoSnapshot,
                switched: false,
                unswitched: None,
            });
        };
        self.clear(rt, shared)?;
        let images = self.copy_images(rt, shared, gate, &look)?;
        let switched = self.switch(rt, alloc, shared)?;
        Ok(Checkpoint {
            images,
            switched: switched.done,
            unswitched: switched.why,
        })
    }
}
