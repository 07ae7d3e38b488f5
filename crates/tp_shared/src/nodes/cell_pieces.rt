//! Frozen nodes under their locks.

ghost use Rattle.std.specs.Prelude.{◌≡◌, ◌<◌, ◌≤◌, ◌+◌, ◌%◌, ◌&&◌, ℕ, true, false, length, nat_lt};
ghost use Rattle.tp_shared.specs.declared.nodes.cells.TheConstants.{CELLS};
ghost use Rattle.tp_shared.specs.Frozen.{has_page, keeps_pages};
ghost use Rattle.tp_shared.specs.Pieces.{AreFrozenPages, IsFrozenHead};
ghost use Rattle.tp_shared.specs.Told.{ToldSince};

use crate::book::locked::Locked;
use crate::flusher::pieces::{drop_of, head_of, pages_of};
use crate::flusher::told::Told;
use crate::naming::Naming;
use crate::nodes::cell::Cell;
use crate::nodes::cells::CELLS;
use std::sync::{Mutex, Wait};
use tp_model::limits::{IMAGE_HEAD_BYTES, PAGE_BYTES};
use tp_ready::twin::Key;

impl<const I: usize, J: Naming> Cell<I, J> {
    /// Gives the head of the image of the node `number` of this cell.
    pub(crate) fn frozen_head<R: Wait>(
        &mut self,
        rt: &R,
        book: &Mutex<Locked<J>>,
        key: &mut Key<Told>,
        number: u8,
        out: &mut [u8; IMAGE_HEAD_BYTES],
    ) -> bool
        requires name { key.old.name ≡ J.flusher }
        requires there { number < length J.start.nodes }
        requires here { number % CELLS ≡ I }
        ensures name { key.new.name ≡ key.old.name }
        ensures since { ToldSince key.old.value key.new.value }
        ensures kept { result ≡ keeps_pages key.new.value.frozen number }
        ensures head { result ≡ true → IsFrozenHead key.new.value.net number out.new }
    {
        let place = &mut self.places[number as usize / CELLS];
        head_of(rt, book, place, key, number, out)
    }

    /// Copies pages of its memory, from the page `first` on. Answers how many.
    pub(crate) fn frozen_pages<R: Wait>(
        &mut self,
        rt: &R,
        book: &Mutex<Locked<J>>,
        key: &mut Key<Told>,
        number: u8,
        first: usize,
        out: &mut [[u8; PAGE_BYTES]],
    ) -> usize
        requires name { key.old.name ≡ J.flusher }
        requires there { number < length J.start.nodes }
        requires here { number % CELLS ≡ I }
        ensures name { key.new.name ≡ key.old.name }
        ensures since { ToldSince key.old.value key.new.value }
        ensures few { result ≤ length out.old }
        ensures kept { (k : ℕ) → k < length out.old → nat_lt k result ≡ (keeps_pages key.new.value.frozen number && has_page key.new.value.net number (first + k)) }
        ensures pages { AreFrozenPages key.new.value.net number first result out.new }
    {
        let place = &mut self.places[number as usize / CELLS];
        pages_of(rt, book, place, key, number, first, out)
    }

    /// Lets its frozen pages go.
    pub(crate) fn drop_frozen<R: Wait>(
        &mut self,
        rt: &R,
        book: &Mutex<Locked<J>>,
        key: &mut Key<Told>,
        number: u8,
    )
        requires name { key.old.name ≡ J.flusher }
        requires there { number < length J.start.nodes }
        requires here { number % CELLS ≡ I }
        ensures name { key.new.name ≡ key.old.name }
        ensures since { ToldSince key.old.value key.new.value }
        ensures gone { keeps_pages key.new.value.frozen number ≡ false }
    {
        let place = &mut self.places[number as usize / CELLS];
        drop_of(rt, book, place, key, number);
    }
}
