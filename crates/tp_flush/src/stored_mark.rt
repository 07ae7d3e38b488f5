//! The mark's raiser in the flusher's hand.

ghost use Rattle.std.specs.Prelude.{◌≡◌, ◌≤◌};
ghost use Rattle.tp_flush.specs.Lower.{AreTrue, moment, RisesOn, number_of, risen};
ghost use Rattle.tp_flush.specs.Known.{Began, Reached};

use crate::whole::Whole;
use std::marker::Model;
use tp_area::Store;
use tp_disk::Disk;
use tp_ready::{Pass, Raiser};
use tp_shared::{Naming, Shared};

/// The mark's raiser. Only this file uses its field: others raise the mark by `raise`, and prove what `raise` requires.
#[derive(Drop)]
pub(crate) struct StoredMark {
    raiser: Raiser,
}

impl Model for StoredMark {
    ghost use Rattle.tp_ready.specs.Seen.{RaiserValue};

    ghost Value = { RaiserValue };

    ghost view = { λ m. m.raiser };
}

impl StoredMark {
    /// Makes it from the raiser that came with the mark.
    pub(crate) fn over(raiser: Raiser) -> StoredMark
        ensures { result ≡ raiser }
    {
        StoredMark { raiser }
    }

    /// Gives the mark's number.
    pub(crate) fn raised(&self) -> u64
        ensures { result ≡ self.now.at }
    {
        self.raiser.raised()
    }

    /// Raises the mark to the number of the next group of `store`. The caller proves that a run leads to a world that has stored so far,
    /// and whose device is the store's as it is now. So a thread that loads the mark, at whatever moment, loads a number that the device
    /// had when the mark was raised to it. The rise is dated by the store's device.
    pub(crate) fn raise<J: Naming, D: Disk>(
        &mut self,
        shared: &Shared<J>,
        store: &Store<D>,
        whole: &Whole,
    )
        requires mark { self.old.mark ≡ J.mark }
        requires stored { store.now.place.next ≡ whole.now.known.world.stored }
        requires disk { AreTrue (D.reads store.now.disk) → whole.now.known.world.disk ≡ (D.state store.now.disk).now }
        requires reached { AreTrue (D.reads store.now.disk) → Began J.formatted J.before whole.now.known.opened → Reached J.formatted whole.now.known.world }
        ensures { self.new ≡ risen self.old store.now.place.next (moment (D.state store.now.disk)) }
    {
        shared
            .mark()
            .raise(&mut self.raiser, store.place.next, &store.disk);
    }

    /// Proves that what `pass` saw is at most the mark's number: the last of the rises that it saw, from which the raiser's go on. It
    /// changes nothing.
    pub(crate) fn settle<J: Naming>(&mut self, shared: &Shared<J>, pass: &mut Pass)
        requires marks { (self.old.mark ≡ J.mark) × (pass.old.mark ≡ J.mark) }
        ensures same { (self.new ≡ self.old) × (pass.new ≡ pass.old) }
        ensures settled { pass.old.at ≤ self.old.at }
        ensures risen { RisesOn pass.old.rises self.old.rises × (pass.old.at ≡ number_of pass.old.rises) }
    {
        shared.mark().settle(&mut self.raiser, pass);
    }
}
