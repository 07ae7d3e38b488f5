//! Images of frozen nodes, taken under the locks of a row (four locks for nodes).

ghost use Rattle.std.specs.Prelude.{◌≡◌, ◌<◌, ◌≤◌, ◌+◌, ◌&&◌, ℕ, true, false, length, nat_lt};
ghost use Rattle.tp_shared.specs.Frozen.{has_page, keeps_pages};
ghost use Rattle.tp_shared.specs.Pieces.{AreFrozenPages, IsFrozenHead};
ghost use Rattle.tp_shared.specs.Rows.{IsInRow};
ghost use Rattle.tp_shared.specs.Told.{ToldSince};

use crate::book::locked::Locked;
use crate::flusher::told::Told;
use crate::naming::Naming;
use crate::nodes::cells::{ROW, in_cell};
use crate::nodes::row::Row;
use crate::soon::lock_soon;
use std::sync::{Mutex, Wait};
use tp_model::limits::{IMAGE_HEAD_BYTES, PAGE_BYTES};
use tp_ready::twin::Key;

impl<const A: usize, const B: usize, const C: usize, const D: usize, J: Naming> Row<A, B, C, D, J> {
    /// Gives the head of the image of the node `number` of this row.
    pub(crate) fn frozen_head<R: Wait>(
        &self,
        rt: &R,
        book: &Mutex<Locked<J>>,
        key: &mut Key<Told>,
        number: u8,
        out: &mut [u8; IMAGE_HEAD_BYTES],
    ) -> bool
        requires name { key.old.name ≡ J.flusher }
        requires there { number < length J.start.nodes }
        requires here { IsInRow A B C D number }
        ensures name { key.new.name ≡ key.old.name }
        ensures since { ToldSince key.old.value key.new.value }
        ensures kept { result ≡ keeps_pages key.new.value.frozen number }
        ensures head { result ≡ true → IsFrozenHead key.new.value.net number out.new }
    {
        in_cell!(self, number, cell => lock_soon(rt, cell).frozen_head(rt, book, key, number, out))
    }

    /// Copies pages of its memory, from the page `first` on. Answers how many.
    pub(crate) fn frozen_pages<R: Wait>(
        &self,
        rt: &R,
        book: &Mutex<Locked<J>>,
        key: &mut Key<Told>,
        number: u8,
        first: usize,
        out: &mut [[u8; PAGE_BYTES]],
    ) -> usize
        requires name { key.old.name ≡ J.flusher }
        requires there { number < length J.start.nodes }
        requires here { IsInRow A B C D number }
        ensures name { key.new.name ≡ key.old.name }
        ensures since { ToldSince key.old.value key.new.value }
        ensures few { result ≤ length out.old }
        ensures kept { (k : ℕ) → k < length out.old → nat_lt k result ≡ (keeps_pages key.new.value.frozen number && has_page key.new.value.net number (first + k)) }
        ensures pages { AreFrozenPages key.new.value.net number first result out.new }
    {
        in_cell!(self, number, cell => lock_soon(rt, cell).frozen_pages(rt, book, key, number, first, out))
    }

    /// Lets its frozen pages go.
    pub(crate) fn drop_frozen<R: Wait>(
        &self,
        rt: &R,
        book: &Mutex<Locked<J>>,
        key: &mut Key<Told>,
        number: u8,
    )
        requires name { key.old.name ≡ J.flusher }
        requires there { number < length J.start.nodes }
        requires here { IsInRow A B C D number }
        ensures name { key.new.name ≡ key.old.name }
        ensures since { ToldSince key.old.value key.new.value }
        ensures gone { keeps_pages key.new.value.frozen number ≡ false }
    {
        in_cell!(self, number, cell => lock_soon(rt, cell).drop_frozen(rt, book, key, number))
    }
}
