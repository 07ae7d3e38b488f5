//! The flusher tells the book that a call of the device has failed.

ghost use Rattle.std.specs.Prelude.{◌≡◌, false};
ghost use Rattle.tp_model.specs.WriteOrder.{Broken};
ghost use Rattle.tp_flush.specs.WasTold.{ToldWhere, WasTold};

use crate::flusher::Flusher;
use std::sync::Wait;
use tp_disk::Disk;
use tp_ready::twin::Key;
use tp_shared::{Naming, Shared, Sights, Told};

/// Tells the book if a call of the device has failed; then the book is seen. `key` shows that, and otherwise what it showed.
pub(crate) fn tell_where<J: Naming, R: Wait>(
    rt: &R,
    shared: &Shared<J>,
    failed: bool,
    key: &mut Key<Told>,
    told: &mut Sights<J>,
)
    requires name { key.old.name ≡ J.flusher }
    requires whole { key.old.value.broken ≡ false }
    ensures name { key.new.name ≡ key.old.name }
    ensures key { key.new.value ≡ record key.old.value { broken = failed } }
    ensures told { ToldWhere failed key.new.value told.new }
{
    if failed {
        let mut held = shared.book().lock(rt);
        held.break_store(key);
        held.show(told);
    }
}

impl<J: Naming, D: Disk> Flusher<J, D> {
    /// Gives what was seen of the book when it was told that a call of the device had failed. From then on it journals nothing more, and
    /// nobody mends it (`settle_book`).
    pub fn told(&self) -> &Sights<J>
        ensures { self.now.world.at ≡ Broken → WasTold result.now }
    {
        let _broken = self.parts.store.broken;
        &self.told
    }
}
