//! What the flusher knows, compared with the book as it is.

ghost use Rattle.std.specs.Prelude.{◌≡◌};
ghost use Rattle.tp_disk.specs.Reads.{AreTrue};
ghost use Rattle.tp_flush.specs.Ahead.{IsAheadOf};
ghost use Rattle.tp_flush.specs.Flushing.{position};
ghost use Rattle.tp_flush.specs.Known.{Began};

use crate::flusher::Flusher;
use tp_disk::Disk;
use tp_shared::{Locked, Naming};

impl<J: Naming, D: Disk> Flusher<J, D> {
    /// Proves three things, and changes nothing:
    /// - The book has the flusher's journal and some entries after it.
    /// - All of them lead from the network of the images with which the device was formatted to the book's network.
    /// - The book is broken exactly if a call of the device has failed, whoever locks it, and when: only the flusher breaks it, and nobody
    ///   mends it.
    pub fn settle_book(&mut self, held: &mut Locked<J>)
        ensures same { (self.new ≡ self.old) × (held.new ≡ held.old) }
        ensures ahead { AreTrue self.new.reads → Began J.formatted J.before self.old.opened → IsAheadOf J.formatted self.old.world held.old.book }
        ensures broken { self.old.world.at ≡ position held.old.book.broken }
    {
        self.known();
        let Flusher { parts, .. } = self;
        held.compare(&mut parts.key);
    }
}
