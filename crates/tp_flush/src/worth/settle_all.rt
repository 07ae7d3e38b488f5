//! Whether all that was journalled is in somebody's hand.

ghost use Rattle.std.specs.Prelude.{◌≡◌, ◌==◌, ◌&&◌, nat_le, length, true};
ghost use Rattle.tp_flush.specs.Lower.{next_in_book, AreTrue};
ghost use Rattle.tp_flush.specs.All.{AreAll};
ghost use Rattle.tp_flush.specs.Known.{Began};

use crate::flusher::Flusher;
use tp_disk::Disk;
use tp_shared::{Locked, Naming, Seat};

impl<J: Naming, D: Disk> Flusher<J, D> {
    /// Whether `seat` has a slip for each entry since the opening, whose first number is `first`, and all of them are below the flusher's
    /// mark. If so, these are all entries of the flusher's journal since the opening, and each of them has one slip. The function changes
    /// nothing.
    pub fn settle_all(&mut self, held: &mut Locked<J>, seat: &mut Seat<J>, first: u64) -> bool
        requires first { first ≡ J.first }
        ensures same { (self.new ≡ self.old) × (held.new ≡ held.old) × (seat.new ≡ seat.old) }
        ensures result { result ≡ ((length seat.old == length held.old.all) && nat_le (next_in_book held.old.book) self.old.world.mark) }
        ensures all { result ≡ true → AreTrue self.new.reads → Began J.formatted J.before self.old.opened → AreAll J.first (next_in_book held.old.book) self.old.world.journal seat.old }
    {
        self.known();
        held.known();
        let has_all = held.has_all(seat, first);
        let is_stored = held.book().next() <= self.mark();
        let Flusher { parts, .. } = self;
        held.compare(&mut parts.key);
        has_all && is_stored
    }
}
