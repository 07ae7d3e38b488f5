//! What the host has handed in, compared with the flusher's journal.

ghost use Rattle.std.specs.Prelude.{◌≡◌, drop};
ghost use Rattle.tp_flush.specs.Lower.{handed, AreTrue};
ghost use Rattle.tp_flush.specs.Known.{Began};
ghost use Rattle.tp_flush.specs.Settled.{HasFront};

use crate::flusher::Flusher;
use std::sync::Wait;
use tp_disk::Disk;
use tp_shared::{HostKey, Locked, Naming, Shared};

impl<J: Naming, D: Disk> Flusher<J, D> {
    /// Proves that `host` shows all that was handed in since the opening, and that what the flusher's journal has of it is a front. It changes
    /// nothing.
    pub fn settle_host(&mut self, held: &mut Locked<J>, host: &mut HostKey<J>)
        ensures same { (self.new ≡ self.old) × (held.new ≡ held.old) × (host.new ≡ host.old) }
        ensures handed { AreTrue self.new.reads → Began J.formatted J.before self.old.opened → HasFront host.old (handed (drop J.first self.old.world.journal)) }
    {
        self.known();
        held.known();
        held.compare_host(host);
        let Flusher { parts, .. } = self;
        held.compare(&mut parts.key);
    }

    /// Takes the book's lock, and settles the host's key under it. It changes nothing.
    pub fn settle_host_under<R: Wait>(&mut self, rt: &R, shared: &Shared<J>, host: &mut HostKey<J>)
        ensures same { (self.new ≡ self.old) × (host.new ≡ host.old) }
        ensures handed { AreTrue self.new.reads → Began J.formatted J.before self.old.opened → HasFront host.old (handed (drop J.first self.old.world.journal)) }
    {
        let mut held = shared.book().lock(rt);
        self.settle_host(&mut held, host);
    }
}
