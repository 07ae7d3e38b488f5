//! What else is done while the book's lock is held: a snapshot begins, lines are closed, and the store breaks.

ghost use Rattle.std.specs.Prelude.{◌≡◌, Some, true, IfOk, OnErr};
ghost use Rattle.tp_shared.specs.Lower.{Begin, happens, t414, world_of, after_begin, begin_refusal, IsAnswer, HostDone, ClosesAll};

use crate::book::locked::Locked;
use crate::flusher::told::Told;
use crate::naming::Naming;
use std::alloc::Global;
use tp_book::Refusal;
use tp_ready::twin::{Key, turn};
use tp_turn::close_all;

impl<J: Naming> Locked<J> {
    /// Begins a snapshot: the host records its ports, and a Marker goes onto each of their wired lines. Each node is then asked
    /// to record.
    pub fn begin_snapshot(&mut self, alloc: Global) -> Result<(), Refusal>
        ensures answer { IsAnswer (begin_refusal self.old.book) result }
        ensures ok { IfOk result (λ done. self.new ≡ record self.old { book = after_begin self.old.book }) }
        ensures act { IfOk result (λ done. happens t414 (world_of self.old.book) Begin ≡ Some (world_of self.new.book)) }
        ensures err { OnErr result (self.new ≡ self.old) }
    {
        self.book.begin(alloc)?;
        Ok(())
    }

    /// Takes each Marker off its line, even if other tokens come before it, if its receiver has recorded. So a snapshot in which all have recorded
    /// has a whole cut, whatever is on the lines.
    pub fn close_all(&mut self)
        ensures done { HostDone ClosesAll self.old.book self.new.book }
        ensures all { self.new.all ≡ self.old.all }
    {
        close_all(&mut self.book);
    }

    /// Ends journalling. Only the holder of `key`, the flusher's, can ask for that: `key` shows what it showed, and that the store is
    /// broken.
    pub fn break_store(&mut self, key: &mut Key<Told>)
        requires name { key.old.name ≡ J.flusher }
        ensures book { self.new ≡ record self.old { book = record self.old.book { broken = true } } }
        ensures name { key.new.name ≡ key.old.name }
        ensures key { key.new.value ≡ record key.old.value { broken = true } }
        ensures was { key.old.value.broken ≡ self.old.book.broken }
    {
        let now = Told::broken(&*key);
        turn(&mut self.told, key, &now);
        self.book.break_store();
    }
}
