//! The flusher writes a frozen image into the other area, a run of its bytes at a time.

ghost use Rattle.std.specs.Prelude.{◌≡◌, ◌+◌, ◌<◌, ◌≤◌, true, false, length, get_or, IfOk};
ghost use Rattle.tp_flush.specs.Lower.{AreTrue, piece_place, content_beside, written, AreFrozenPages, IsFrozenHead, keeps_pages, image_length, Resting};
ghost use Rattle.tp_flush.specs.Copying.{IsGone, IsPartOut};
ghost use Rattle.tp_flush.specs.Progress.{is_out, with_out};
ghost use Rattle.tp_flush.specs.Flushing.{FlushedOn};
ghost use Rattle.tp_flush.specs.Ends.{Tried, NothingStored};

use crate::fault::FlushFault;
use crate::flusher::Flusher;
use crate::rights::may_step;
use crate::steps::appending::answer_of;
use crate::steps::telling::tell_where;
use crate::whole::Whole;
use std::sync::Wait;
use tp_disk::Disk;
use tp_model::limits::{IMAGE_HEAD_BYTES, PAGE_BYTES};
use tp_shared::{Naming, Shared};

impl<J: Naming, D: Disk> Flusher<J, D> {
    /// Closes the other area's gate if it is open, once for a snapshot. Tells the book if a call of the device fails.
    #[inline(never)]
    pub(crate) fn clear<R: Wait>(&mut self, rt: &R, shared: &Shared<J>) -> Result<(), FlushFault>
        requires rests { self.old.world.at ≡ Resting }
        ensures tried { Tried result self.old self.new }
        ensures goes { FlushedOn J.formatted J.before self.old self.new }
        ensures cleared { self.new.progress.cleared ≡ true }
        ensures out { self.new.progress.out ≡ self.old.progress.out }
    {
        self.known();
        let Flusher { parts, told } = self;
        if parts.progress.cleared {
            return Ok(());
        }
        may_step::<D>();
        let done = parts.store.clear_other();
        parts.progress.cleared = true;
        parts.whole = Whole::of(&*parts);
        tell_where(rt, shared, parts.store.broken, &mut parts.key, told);
        answer_of(done)
    }

    /// Puts `bytes` into the other area, from the byte `inner` of the place of `node`'s frozen image on, which begins at `image`. Tells the
    /// book if a call of the device fails.
    pub(crate) fn put<R: Wait>(
        &mut self,
        rt: &R,
        shared: &Shared<J>,
        node: usize,
        image: u64,
        inner: u64,
        bytes: &[u8],
    ) -> Result<(), FlushFault>
        requires rests { self.old.world.at ≡ Resting }
        requires cleared { self.old.progress.cleared ≡ true }
        requires node { node < length self.old.topology.pages }
        requires image { image ≡ piece_place self.old.topology node 0 }
        requires within { inner + length bytes.now ≤ image_length (get_or self.old.topology.pages node 0) }
        requires free { is_out self.old.progress node ≡ false }
        ensures tried { Tried result self.old self.new }
        ensures same { (self.new.world.net ≡ self.old.world.net) × (self.new.progress ≡ self.old.progress) }
        ensures room { AreTrue self.new.reads → image + inner + length bytes.now ≤ length (content_beside self.old.place self.old.state) }
        ensures content { AreTrue self.new.reads → IfOk result (λ done. content_beside self.new.place self.new.state ≡ written (content_beside self.old.place self.old.state) (image + inner) bytes.now) }
        ensures goes { FlushedOn J.formatted J.before self.old self.new }
    {
        self.known();
        let _node = node;
        let Flusher { parts, told } = self;
        may_step::<D>();
        let done = parts.store.put_at(image + inner, bytes);
        parts.whole = Whole::of(&*parts);
        tell_where(rt, shared, parts.store.broken, &mut parts.key, told);
        answer_of(done)
    }

    /// Reads the head of the frozen image of `node`. False if the node isn't frozen.
    pub(crate) fn read_head<R: Wait>(
        &mut self,
        rt: &R,
        shared: &Shared<J>,
        node: u8,
        out: &mut [u8; IMAGE_HEAD_BYTES],
    ) -> bool
        requires rests { self.old.world.at ≡ Resting }
        requires there { node < length J.start.nodes }
        ensures went { NothingStored self.old self.new }
        ensures same { (self.new.state ≡ self.old.state) × (self.new.progress ≡ self.old.progress) }
        ensures head { result ≡ true → IsFrozenHead self.new.world.net node out.new }
        ensures goes { FlushedOn J.formatted J.before self.old self.new }
    {
        self.known();
        let Flusher { parts, .. } = self;
        let found = shared.frozen_head(rt, &mut parts.key, node, out);
        parts.whole = Whole::of(&*parts);
        found
    }

    /// Reads pages of it, from the page `first` on, until its last page or the end of `out`. Answers how many: 0 if the node isn't frozen.
    pub(crate) fn read_pages<R: Wait>(
        &mut self,
        rt: &R,
        shared: &Shared<J>,
        node: u8,
        first: usize,
        out: &mut [[u8; PAGE_BYTES]],
    ) -> usize
        requires rests { self.old.world.at ≡ Resting }
        requires there { node < length J.start.nodes }
        ensures went { NothingStored self.old self.new }
        ensures same { (self.new.state ≡ self.old.state) × (self.new.progress ≡ self.old.progress) }
        ensures few { result ≤ length out.old }
        ensures pages { AreFrozenPages self.new.world.net node first result out.new }
        ensures goes { FlushedOn J.formatted J.before self.old self.new }
    {
        self.known();
        let Flusher { parts, .. } = self;
        let found = shared.frozen_pages(rt, &mut parts.key, node, first, out);
        parts.whole = Whole::of(&*parts);
        found
    }

    /// Drops the frozen pages of `node`. From then on the flusher knows the book as it is.
    pub(crate) fn drop_pages<R: Wait>(&mut self, rt: &R, shared: &Shared<J>, node: u8)
        requires rests { self.old.world.at ≡ Resting }
        requires there { node < length J.start.nodes }
        ensures went { NothingStored self.old self.new }
        ensures same { (self.new.state ≡ self.old.state) × (self.new.progress ≡ self.old.progress) }
        ensures gone { keeps_pages self.new.frozen node ≡ false }
        ensures goes { FlushedOn J.formatted J.before self.old self.new }
    {
        self.known();
        let Flusher { parts, .. } = self;
        shared.drop_frozen(rt, &mut parts.key, node);
        parts.whole = Whole::of(&*parts);
    }

    /// Notes that all pieces of the frozen image of `node` are in the other area, and its pages are dropped.
    pub(crate) fn put_out(&mut self, node: usize)
        requires rests { self.old.world.at ≡ Resting }
        requires node { node < length self.old.topology.pages }
        requires stands { AreTrue self.old.reads → IsPartOut self.old.topology self.old.world.net (content_beside self.old.place self.old.state) node (get_or self.old.topology.pages node 0) }
        requires gone { IsGone self.old.world.net self.old.frozen node }
        ensures went { NothingStored self.old self.new }
        ensures out { self.new.progress ≡ with_out self.old.progress node }
        ensures is { is_out self.new.progress node ≡ true }
        ensures goes { FlushedOn J.formatted J.before self.old self.new }
    {
        self.known();
        let Flusher { parts, .. } = self;
        let _pages = parts.topology.pages();
        parts.progress.put_out(node);
    }
}
