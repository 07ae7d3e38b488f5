//! What the flusher does with a node that recorded, while a snapshot runs.

ghost use Rattle.std.specs.Prelude.{◌≡◌, ◌<◌, ◌≤◌, ◌+◌, ◌&&◌, ℕ, true, false, length, nat_lt};
ghost use Rattle.tp_shared.specs.Frozen.{has_page, keeps_pages};
ghost use Rattle.tp_shared.specs.Pieces.{AreFrozenPages, IsFrozenHead};
ghost use Rattle.tp_shared.specs.Told.{ToldSince};

use crate::flusher::told::Told;
use crate::naming::Naming;
use crate::nodes::cells::{CELLS, ROW, in_row};
use crate::shared::Shared;
use std::sync::Wait;
use tp_model::limits::{IMAGE_HEAD_BYTES, PAGE_BYTES};
use tp_ready::twin::Key;

impl<J: Naming> Shared<J> {
    /// Copies the bytes before the memory in the image of the node `number`, as it recorded in the snapshot that runs. False exactly if no
    /// pages of it are kept. `key` then shows what is told of the book, with which nodes have kept pages.
    pub fn frozen_head<R: Wait>(
        &self,
        rt: &R,
        key: &mut Key<Told>,
        number: u8,
        out: &mut [u8; IMAGE_HEAD_BYTES],
    ) -> bool
        requires name { key.old.name ≡ J.flusher }
        requires there { number < length J.start.nodes }
        ensures name { key.new.name ≡ key.old.name }
        ensures since { ToldSince key.old.value key.new.value }
        ensures kept { result ≡ keeps_pages key.new.value.frozen number }
        ensures head { result ≡ true → IsFrozenHead key.new.value.net number out.new }
    {
        let book = self.book();
        in_row!(self, number, row => row.frozen_head(rt, book, key, number, out))
    }

    /// Copies pages of its memory as it recorded, from the page `first` on, until its last page or the end of `out`. Answers how many: 0 if
    /// no pages of it are kept. One hold of the node's lock copies all of them, so a turn of a node of its cell waits for that. The node
    /// may have turns between two calls.
    pub fn frozen_pages<R: Wait>(
        &self,
        rt: &R,
        key: &mut Key<Told>,
        number: u8,
        first: usize,
        out: &mut [[u8; PAGE_BYTES]],
    ) -> usize
        requires name { key.old.name ≡ J.flusher }
        requires there { number < length J.start.nodes }
        ensures name { key.new.name ≡ key.old.name }
        ensures since { ToldSince key.old.value key.new.value }
        ensures few { result ≤ length out.old }
        ensures kept { (k : ℕ) → k < length out.old → nat_lt k result ≡ (keeps_pages key.new.value.frozen number && has_page key.new.value.net number (first + k)) }
        ensures pages { AreFrozenPages key.new.value.net number first result out.new }
    {
        let book = self.book();
        in_row!(self, number, row => row.frozen_pages(rt, book, key, number, first, out))
    }

    /// Drops the frozen pages of the node `number`, once all are written. `key` then shows what is told of the book: it keeps no page of
    /// the node. If the node has recorded in the snapshot that runs, it keeps none until the next snapshot.
    pub fn drop_frozen<R: Wait>(&self, rt: &R, key: &mut Key<Told>, number: u8)
        requires name { key.old.name ≡ J.flusher }
        requires there { number < length J.start.nodes }
        ensures name { key.new.name ≡ key.old.name }
        ensures since { ToldSince key.old.value key.new.value }
        ensures gone { keeps_pages key.new.value.frozen number ≡ false }
    {
        let book = self.book();
        in_row!(self, number, row => row.drop_frozen(rt, book, key, number))
    }
}
