//! Whether a seat has all slips.

ghost use Rattle.std.specs.Prelude.{◌≡◌, ℕ, ◌==◌, length, true};
ghost use Rattle.tp_ready.specs.Sound.{shown, item_of};

use crate::book::locked::Locked;
use crate::naming::Naming;
use crate::seat::Seat;

impl<J: Naming> Locked<J> {
    /// Whether `seat` has a slip for each entry since the opening, as the counts of both tell. If so, it has for each number the slip of
    /// the journal's entry, once, and no other. The first entry's number is `first`. It changes nothing.
    pub fn has_all(&mut self, seat: &mut Seat<J>, first: u64) -> bool
        requires first { first ≡ J.first }
        ensures same { (self.new ≡ self.old) × (seat.new ≡ seat.old) }
        ensures count { result ≡ (length seat.old == length self.old.all) }
        ensures each { result ≡ true → (n : ℕ) → shown n seat.old ≡ item_of J.first self.old.all n }
    {
        self.audit(seat);
        self.book.known();
        self.book.next() - first == seat.count
    }
}
