//! Turns' holds of the book's lock. The book is seen at their beginning and at their end.

ghost use Rattle.std.specs.Prelude.{◌≡◌, ◌<◌, ◌≤◌, length, IfErr, MatchResult};
ghost use Rattle.tp_shared.specs.Lower.{MAX_STEPS, opened_entries, sent_in, turn_received};
ghost use Rattle.tp_shared.specs.Entries.{IsTurnRefusal, OpenedEntries, TakesOf};
ghost use Rattle.tp_shared.specs.Gains.{Gained};
ghost use Rattle.tp_shared.specs.Holds.{in_hand};
ghost use Rattle.tp_shared.specs.Seals.{KeyShows, ShowsOpen, ShowsRun};
ghost use Rattle.tp_shared.specs.TurnsMade.{HostTurnMade, TurnCommitted, TurnOpened};

use crate::book::locked::Locked;
use crate::book::sights::Sights;
use crate::naming::Naming;
use crate::nodes::place::Place;
use crate::seat::Seat;
use tp_book::Refusal;
use tp_node::Ran;
use tp_turn::{Opened, Stretch};

impl<J: Naming> Locked<J> {
    /// Opens a node's turn in the form of the book, which is seen before and after that.
    pub(crate) fn begin_seen(
        &mut self,
        place: &mut Place,
        seat: &mut Seat<J>,
        seen: &mut Sights<J>,
        number: u8,
    ) -> Result<Opened, Refusal>
        requires there { number < length J.start.nodes }
        requires named { place.old.key.name ≡ J.node number }
        requires shows { KeyShows place.old }
        ensures named { place.new.key.name ≡ place.old.key.name }
        ensures shows { MatchResult result (λ opened. ShowsOpen place.new (turn_received opened) (sent_in opened)) (λ e. KeyShows place.new) }
        ensures opened { TurnOpened J.start number result place.old.node place.new.node (in_hand seen.old seat.old) (in_hand seen.new seat.new) }
        ensures gained { Gained (OpenedEntries J.start number result) seat.old seat.new }
        ensures refused { IfErr result IsTurnRefusal }
    {
        self.show(seen);
        self.known();
        let done = self.begin(place, seat, number);
        self.known();
        self.show(seen);
        done
    }

    /// Journals a node's turn by how it was opened. The book is seen before and after that.
    pub(crate) fn commit_seen(
        &mut self,
        place: &mut Place,
        seat: &mut Seat<J>,
        seen: &mut Sights<J>,
        number: u8,
        opened: Opened,
        stretch: Stretch,
    ) -> Ran
        requires there { number < length J.start.nodes }
        requires named { place.old.key.name ≡ J.node number }
        requires few { stretch.ran.count ≤ MAX_STEPS }
        requires ran { ShowsRun place.old (turn_received opened) (sent_in opened) stretch.ran.count stretch.sent.items }
        ensures ran { result ≡ stretch.ran }
        ensures named { place.new.key.name ≡ place.old.key.name }
        ensures shows { KeyShows place.new }
        ensures committed { TurnCommitted J.start number opened stretch.ran.count place.old.node (in_hand seen.old seat.old) (in_hand seen.new seat.new) }
        ensures gained { Gained (λ entries. entries ≡ opened_entries number opened stretch.ran.count) seat.old seat.new }
    {
        self.show(seen);
        self.known();
        let ran = self.commit(place, seat, number, opened, stretch);
        self.known();
        self.show(seen);
        ran
    }

    /// Makes the host's turn. The book is seen before and after it.
    pub(crate) fn host_turn_seen(
        &mut self,
        seat: &mut Seat<J>,
        seen: &mut Sights<J>,
    ) -> Result<u64, Refusal>
        ensures went { HostTurnMade J.start result (in_hand seen.old seat.old) (in_hand seen.new seat.new) }
        ensures gained { Gained (TakesOf J.start (length J.start.nodes) result) seat.old seat.new }
        ensures refused { IfErr result IsTurnRefusal }
    {
        self.show(seen);
        self.known();
        let done = self.host_turn(seat);
        self.known();
        self.show(seen);
        done
    }
}
