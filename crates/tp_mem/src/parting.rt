//! Parting shared pages from their frozen copies, before they are written.

ghost use Rattle.std.specs.Prelude.{◌≡◌, ◌+◌, ◌-◌, ◌*◌, ◌/◌, ◌<◌, ◌≤◌, ◌^◌, [], ◌∷◌, ◌&&◌, not, if◌then◌else◌, true, false, length, get_or, set, ◌↔◌, IfOk, OnOk, OnErr, IsOk, IsSome, IsTrue};
ghost use Rattle.tp_mem.specs.Lower.{list_any, block_ranges, word_ranges, touches, shared_from, private_in, wanted_from};
ghost use Rattle.tp_mem.specs.Ranges.{are_inside};

use crate::copy_table::page_at;
use crate::cow::CowMemory;
use crate::fault::NoFrame;
use crate::touch::{
    NOWHERE, Range, block, has_own_row, is_shared, is_touched, one_page, shares, shares_two, wanted,
};
use tp_model::limits::PAGE_BYTES;

impl CowMemory {
    /// Parts a shared page from its frozen copy, whose bytes go into a spare frame.
    fn part(&mut self, page: usize)
        requires shared { get_or self.old.shared page false ≡ true }
        requires room { private_in self.old.shared < self.old.spare }
        ensures { self.new ≡ record self.old { shared = set self.old.shared page false } }
    {
        let Ok(id) = self.pool.take() else {
            unreachable!()
        };
        self.pool.put(&id, page_at(self.live.as_slice(), page));
        self.copies[page] = Some(id);
        self.shared[page] = false;
    }

    /// Parts a page if it is shared and ranges have bytes in it.
    fn part_touched(&mut self, page: usize, first: Range, block: Range, words: &[(u32, u32)])
        requires page { page < length self.old.shared }
        requires first { first.0 + first.1 < 2 ^ 33 }
        requires block { block.0 + block.1 < 2 ^ 33 }
        requires room { private_in self.old.shared + (if get_or self.old.shared page false && list_any (touches page) (first ∷ block ∷ word_ranges words.now) then 1 else 0) ≤ self.old.spare }
        ensures { self.new ≡ record self.old { shared = set self.old.shared page (get_or self.old.shared page false && not (list_any (touches page) (first ∷ block ∷ word_ranges words.now))) } }
    {
        if !self.shared[page] {
            return;
        }
        if !is_touched(page, first, block, words) {
            return;
        }
        self.part(page);
    }

    /// Parts the shared pages that ranges have bytes in. `NoFrame` if there are too few free frames.
    fn separate_pages(
        &mut self,
        first: Range,
        block: Range,
        words: &[(u32, u32)],
    ) -> Result<(), NoFrame>
        requires frozen { IsSome self.old.frozen }
        requires first { first.0 + first.1 < 2 ^ 33 }
        requires block { block.0 + block.1 < 2 ^ 33 }
        ensures ok { IfOk result (λ _. self.new ≡ record self.old { shared = shared_from 0 self.old.shared (first ∷ block ∷ word_ranges words.now) }) }
        ensures fits { OnOk result (wanted_from 0 self.old.shared (first ∷ block ∷ word_ranges words.now) ≤ self.old.spare - private_in self.old.shared) }
        ensures err { OnErr result ((self.new ≡ self.old) × (self.old.spare - private_in self.old.shared < wanted_from 0 self.old.shared (first ∷ block ∷ word_ranges words.now))) }
    {
        if wanted(&self.shared, first, block, words) > self.pool.free() {
            return Err(NoFrame);
        }
        let pages = self.shared.len();
        for page in 0..pages {
            self.part_touched(page, first, block, words);
        }
        Ok(())
    }

    /// Parts a page if it is shared. `NoFrame` if no frame is free.
    fn separate_page(&mut self, page: usize) -> Result<(), NoFrame>
        ensures ok { IfOk result (λ _. self.new ≡ record self.old { shared = set self.old.shared page false }) }
        ensures fits { OnOk result ((if get_or self.old.shared page false then 1 else 0) ≤ self.old.spare - private_in self.old.shared) }
        ensures err { OnErr result ((self.new ≡ self.old) × (get_or self.old.shared page false ≡ true) × (self.old.spare ≤ private_in self.old.shared)) }
    {
        if !is_shared(&self.shared, page) {
            return Ok(());
        }
        if self.pool.free() == 0 {
            return Err(NoFrame);
        }
        self.part(page);
        Ok(())
    }

    /// Parts the shared pages that the ranges have bytes in. It tests one page alone if they have bytes in no other. It is never inlined:
    /// few writes come here, and the loops of the others stay short.
    #[inline(never)]
    fn separate_shared(
        &mut self,
        first: Range,
        block: Range,
        words: &[(u32, u32)],
    ) -> Result<(), NoFrame>
        requires frozen { IsSome self.old.frozen }
        requires first { first.0 + first.1 < 2 ^ 33 }
        requires block { block.0 + block.1 < 2 ^ 33 }
        ensures ok { IfOk result (λ _. self.new ≡ record self.old { shared = shared_from 0 self.old.shared (first ∷ block ∷ word_ranges words.now) }) }
        ensures fits { OnOk result (wanted_from 0 self.old.shared (first ∷ block ∷ word_ranges words.now) ≤ self.old.spare - private_in self.old.shared) }
        ensures err { OnErr result ((self.new ≡ self.old) × (self.old.spare - private_in self.old.shared < wanted_from 0 self.old.shared (first ∷ block ∷ word_ranges words.now))) }
    {
        match one_page(first, block, words) {
            Some(page) => self.separate_page(page),
            None => self.separate_pages(first, block, words),
        }
    }

    /// Parts the shared pages that the ranges have bytes in. If none of their pages is shared, it tests no others.
    #[inline(always)]
    fn separate_frozen(
        &mut self,
        first: Range,
        block: Range,
        words: &[(u32, u32)],
    ) -> Result<(), NoFrame>
        requires frozen { IsSome self.old.frozen }
        requires first { first.0 + first.1 < 2 ^ 33 }
        requires block { block.0 + block.1 < 2 ^ 33 }
        ensures ok { IfOk result (λ _. self.new ≡ record self.old { shared = shared_from 0 self.old.shared (first ∷ block ∷ word_ranges words.now) }) }
        ensures fits { OnOk result (wanted_from 0 self.old.shared (first ∷ block ∷ word_ranges words.now) ≤ self.old.spare - private_in self.old.shared) }
        ensures err { OnErr result ((self.new ≡ self.old) × (self.old.spare - private_in self.old.shared < wanted_from 0 self.old.shared (first ∷ block ∷ word_ranges words.now))) }
    {
        if !shares(&self.shared, first, block, words) {
            return Ok(());
        }
        self.separate_shared(first, block, words)
    }

    /// Parts the shared pages that the ranges have bytes in. If memory isn't frozen, it makes no call.
    #[inline(always)]
    pub(crate) fn separate(
        &mut self,
        first: Range,
        block: Range,
        words: &[(u32, u32)],
    ) -> Result<(), NoFrame>
        requires first { first.0 + first.1 < 2 ^ 33 }
        requires block { block.0 + block.1 < 2 ^ 33 }
        ensures ok { IfOk result (λ _. self.new ≡ record self.old { shared = shared_from 0 self.old.shared (first ∷ block ∷ word_ranges words.now) }) }
        ensures fits { OnOk result (wanted_from 0 self.old.shared (first ∷ block ∷ word_ranges words.now) ≤ self.old.spare - private_in self.old.shared) }
        ensures err { OnErr result ((self.new ≡ self.old) × IsSome self.old.frozen × (self.old.spare - private_in self.old.shared < wanted_from 0 self.old.shared (first ∷ block ∷ word_ranges words.now))) }
    {
        if !self.is_frozen {
            return Ok(());
        }
        self.separate_frozen(first, block, words)
    }

    /// Whether the page of the `count` bytes at `at`, which are in one page, isn't shared. It tests one flag, and nothing else: no page is
    /// shared while memory isn't frozen.
    #[inline(always)]
    pub(crate) fn is_own(&self, at: usize, count: usize) -> bool
        requires there { at < length self.now.live }
        requires inside { at + count ≤ PAGE_BYTES * (at / PAGE_BYTES) + PAGE_BYTES }
        ensures { result ≡ true → self.now ≡ record self.now { shared = shared_from 0 self.now.shared ((at, count) ∷ (0, 0) ∷ []) } }
    {
        !self.shared[at / PAGE_BYTES]
    }

    /// Whether the pages of words aren't shared.
    #[inline(always)]
    fn have_own_pages(&self, words: &[(u32, u32)]) -> bool
        ensures { result ≡ true → self.now ≡ record self.now { shared = shared_from 0 self.now.shared ((0, 0) ∷ (0, 0) ∷ word_ranges words.now) } }
    {
        if !self.is_frozen {
            return true;
        }
        !shares(&self.shared, NOWHERE, NOWHERE, words)
    }

    /// Whether the pages of words that are inside aren't shared. Of two words, and of four in a row, which the interpreter's loop writes, it
    /// tests the flags of their pages alone.
    #[inline(always)]
    pub(crate) fn are_own(&self, words: &[(u32, u32)]) -> bool
        requires { IsTrue (are_inside (length self.now.live) words.now) }
        ensures { result ≡ true → self.now ≡ record self.now { shared = shared_from 0 self.now.shared ((0, 0) ∷ (0, 0) ∷ word_ranges words.now) } }
    {
        match words {
            [one, two] => !shares_two(&self.shared, one.0, two.0),
            [one, two, three, four] => has_own_row(&self.shared, one.0, two.0, three.0, four.0),
            _ => self.have_own_pages(words),
        }
    }

    /// Makes the pages of a range private, so that the frozen bytes share none of them. `NoFrame`, and nothing changes, if the shared ones
    /// among them outnumber the free frames.
    pub fn make_private(&mut self, address: u32, count: u32) -> Result<(), NoFrame>
        ensures ok { IfOk result (λ _. self.new ≡ record self.old { shared = shared_from 0 self.old.shared (block_ranges address count) }) }
        ensures err { OnErr result (self.new ≡ self.old) }
        ensures exact { IsOk result ↔ (wanted_from 0 self.old.shared (block_ranges address count) ≤ self.old.spare - private_in self.old.shared) }
    {
        self.separate(block(address, count), NOWHERE, &[])
    }
}
