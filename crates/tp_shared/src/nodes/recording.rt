//! A node records under the book's lock, while nothing runs.

ghost use Rattle.std.specs.Prelude.{◌≡◌, ◌<◌, length};
ghost use Rattle.tp_shared.specs.Lower.{is_asked, Done, IsNodeOf, moment_of, Records};
ghost use Rattle.tp_shared.specs.RecordedIn.{RecordedIn};
ghost use Rattle.tp_shared.specs.Seals.{KeyShows};
ghost use Rattle.tp_shared.specs.Holds.{IsBookOf};

use crate::book::hold::record;
use crate::book::locked::Locked;
use crate::book::sights::Sights;
use crate::naming::Naming;
use crate::nodes::place::Place;
use crate::nodes::recorded::Recorded;
use crate::nodes::shown::Shown;
use tp_ready::twin::{agree, turn};

impl<J: Naming> Locked<J> {
    /// Lets the node record, if it is asked to. It takes nothing, and nothing runs. Answers whether it recorded.
    pub(crate) fn record(&mut self, place: &mut Place, number: u8) -> bool
        requires there { number < length J.start.nodes }
        requires named { place.old.key.name ≡ J.node number }
        requires shows { KeyShows place.old }
        ensures named { place.new.key.name ≡ place.old.key.name }
        ensures shows { KeyShows place.new }
        ensures of { IsBookOf J.start self.old.book }
        ensures is { IsNodeOf self.old.book number place.old.node }
        ensures asked { result ≡ is_asked self.old.book.state.snapshot number }
        ensures did { Done number (Records number) (moment_of self.old.book place.old.node) (moment_of self.new.book place.new.node) }
        ensures all { self.new.all ≡ self.old.all }
    {
        let Locked { book, seals, .. } = self;
        let Place { node, key } = place;
        let here = &mut seals[number as usize];
        agree(&mut here.seal, key);
        let asked = book.asked(number);
        record(book, node, number);
        let now = Shown::free(node);
        turn(&mut here.seal, key, &now);
        here.frozen = node.is_frozen();
        asked
    }

    /// Records, and sees the book before and after that.
    pub(crate) fn record_seen(&mut self, place: &mut Place, number: u8) -> Recorded<J>
        requires there { number < length J.start.nodes }
        requires named { place.old.key.name ≡ J.node number }
        requires shows { KeyShows place.old }
        ensures named { place.new.key.name ≡ place.old.key.name }
        ensures shows { KeyShows place.new }
        ensures recorded { RecordedIn J.start number result.seen result.done }
    {
        let mut seen = Sights::new();
        self.show(&mut seen);
        let done = self.record(place, number);
        self.show(&mut seen);
        Recorded { done, seen }
    }
}
