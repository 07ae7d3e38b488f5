//! The flusher raises the mark.

ghost use Rattle.std.specs.Prelude.{◌≡◌, ◌≤◌};
ghost use Rattle.tp_flush.specs.Flushing.{FlushedOn, OnlyLooked};

use crate::flusher::Flusher;
use crate::whole::Whole;
use tp_disk::Disk;
use tp_shared::{Naming, Shared};

impl<J: Naming, D: Disk> Flusher<J, D> {
    /// Raises the mark to the number that the synced gates reach. Answers the mark.
    pub(crate) fn raise(&mut self, shared: &Shared<J>) -> u64
        ensures mark { result ≡ self.new.world.mark }
        ensures reaches { self.old.world.stored ≤ result }
        ensures up { self.old.world.mark ≤ result }
        ensures looked { OnlyLooked self.old self.new }
        ensures net { (self.new.world.net ≡ self.old.world.net) × (self.new.frozen ≡ self.old.frozen) }
        ensures goes { FlushedOn J.formatted J.before self.old self.new }
    {
        self.known();
        let Flusher { parts, .. } = self;
        parts.raiser.raise(shared, &parts.store, &parts.whole);
        parts.whole = Whole::of(&*parts);
        parts.raiser.raised()
    }
}
