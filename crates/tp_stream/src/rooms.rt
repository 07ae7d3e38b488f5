//! Room in the journal.

ghost use Rattle.std.specs.Prelude.{◌≡◌, ◌<◌, true, false};
ghost use Rattle.tp_stream.specs.Lower.{is_journal_full, journal_of};
ghost use Rattle.tp_stream.specs.Rooms.{HavePlace, UnreservedBook, every_of, free_of, has_room_for};
ghost use Rattle.tp_stream.specs.Told.{used_of};

use tp_area::JournalRoom;
use tp_book::Book;
use tp_model::limits::{MAX_HELD, NUMBER_LIMIT};
use tp_net::Topology;

/// The journal of an area, for questions about its room.
#[derive(Clone, Copy)]
pub(crate) struct Rooms {
    journal: JournalRoom,
}

impl Rooms {
    /// Gives the journal of a device's areas, if each has `area` bytes.
    pub(crate) fn of(topology: &Topology, area: u64) -> Rooms
        ensures { result.journal ≡ journal_of topology.now area }
    {
        Rooms {
            journal: JournalRoom::of(topology, area),
        }
    }

    /// Whether there is room for `more` entries that any process may make. If there is, and the book is in this journal with no run reserved, none of
    /// these entries is refused with `JournalFull`.
    pub(crate) fn has_room(self, book: &Book, more: u32) -> bool
        ensures value { result ≡ has_room_for self.journal book.now more }
        ensures keeps { UnreservedBook self.journal book.now → result ≡ true → is_journal_full book.now more ≡ false }
    {
        book.known();
        let made = book.next().saturating_sub(book.base());
        self.journal.takes(made + u64::from(more))
            && book.next() + u64::from(more) < NUMBER_LIMIT as u64
    }

    /// How many more entries there is room for.
    pub(crate) fn free(self, book: &Book) -> u64
        ensures { result ≡ free_of self.journal book.now }
    {
        let made = book.next().saturating_sub(book.base());
        self.journal.left(made)
    }

    /// How many entries since the kept cut begin a snapshot: `asked`, or, if that is `None` or more, as many as fill half of the journal. It is at
    /// least one, so that no snapshot begins if nothing has happened.
    pub(crate) fn every(self, asked: Option<u32>) -> u64
        ensures value { result ≡ every_of self.journal asked }
        ensures some { 0 < result }
    {
        let half = self.journal.half().max(1);
        match asked {
            Some(entries) => half.min(u64::from(entries).max(1)),
            None => half,
        }
    }

    /// How much of the journal is in use, in percent.
    pub(crate) fn used(self, book: &Book) -> u64
        ensures { result ≡ used_of self.journal book.now }
    {
        book.known();
        let made = book.next().saturating_sub(book.base());
        made * 100 / self.journal.capacity().max(1)
    }
}

/// Whether each port has room for one more byte of output.
pub(crate) fn have_place(book: &Book) -> bool
    ensures place { result ≡ true → HavePlace book.now }
    ensures exact { HavePlace book.now → result ≡ true }
{
    book.known();
    for port in 0..book.ports() {
        if book.outputs(port as u8).len() >= MAX_HELD {
            return false;
        }
    }
    true
}
