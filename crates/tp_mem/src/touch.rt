//! Which pages the ranges of writes have bytes in.

ghost use Rattle.std.specs.Prelude.{◌≡◌, ℕ, ◌+◌, ◌*◌, ◌/◌, ◌<◌, ◌≤◌, ◌^◌, [], ◌∷◌, true, false, ◌&&◌, ◌||◌, if◌then◌else◌, length, get_or, All, IfSome};
ghost use Rattle.tp_mem.specs.Lower.{list_any, MAX_PAGES, word_offset, block_ranges, word_ranges, touches, wanted_from};

use crate::address::{offset, word_offset};
use tp_model::limits::PAGE_BYTES;

/// An offset in memory, and how many bytes there are.
pub(crate) type Range = (usize, usize);

/// The range of no bytes.
pub(crate) const NOWHERE: Range = (0, 0);

/// Gives the range of a block that is written.
pub(crate) fn block(to: u32, count: u32) -> Range
    ensures pages { (page : ℕ) → touches page result ≡ list_any (touches page) (block_ranges to count) }
    ensures small { result.0 + result.1 < 2 ^ 33 }
{
    if count == 0 {
        return NOWHERE;
    }
    (offset(to), count as usize)
}

/// Whether a range has bytes in a page.
fn touches(page: usize, range: Range) -> bool
    requires page { page ≤ MAX_PAGES }
    requires small { range.0 + range.1 < 2 ^ 33 }
    ensures { result ≡ touches page range }
{
    range.1 > 0 && range.0 < PAGE_BYTES * page + PAGE_BYTES && PAGE_BYTES * page < range.0 + range.1
}

/// Whether a word that is written is in a page.
fn has_word(page: usize, words: &[(u32, u32)]) -> bool
    requires page { page ≤ MAX_PAGES }
    ensures { result ≡ list_any (λ word. touches page (word_offset word.0, 4)) words.now }
{
    words
        .iter()
        .any(|word| touches(page, (word_offset(word.0), 4)))
}

/// Whether two ranges, or words that are written, have bytes in a page.
#[tactic(auto, using(crate::proofs::Touches::words_touch))]
pub(crate) fn is_touched(page: usize, first: Range, block: Range, words: &[(u32, u32)]) -> bool
    requires page { page ≤ MAX_PAGES }
    requires first { first.0 + first.1 < 2 ^ 33 }
    requires block { block.0 + block.1 < 2 ^ 33 }
    ensures { result ≡ list_any (touches page) (first ∷ block ∷ word_ranges words.now) }
{
    touches(page, first) || touches(page, block) || has_word(page, words)
}

/// Whether a page is shared.
#[inline(always)]
pub(crate) fn is_shared(shared: &[bool], page: usize) -> bool
    ensures { result ≡ get_or shared.now page false }
{
    shared.get(page).copied().unwrap_or(false)
}

/// Whether a range has bytes in a shared page.
#[inline(always)]
fn shares_range(shared: &[bool], range: Range) -> bool
    requires small { range.0 + range.1 < 2 ^ 33 }
    ensures { result ≡ false → (page : ℕ) → get_or shared.now page false ≡ true → touches page range ≡ false }
{
    for page in range.0 / PAGE_BYTES..(range.0 + range.1 + PAGE_BYTES - 1) / PAGE_BYTES {
        if is_shared(shared, page) {
            return true;
        }
    }
    false
}

/// Whether a word that is written is in a shared page.
#[inline(always)]
fn shares_word(shared: &[bool], words: &[(u32, u32)]) -> bool
    ensures { result ≡ list_any (λ word. get_or shared.now (word_offset word.0 / PAGE_BYTES) false) words.now }
{
    words
        .iter()
        .any(|word| is_shared(shared, word_offset(word.0) / PAGE_BYTES))
}

/// Whether the word of one of two addresses is in a shared page.
#[inline(always)]
pub(crate) fn shares_two(shared: &[bool], one: u32, two: u32) -> bool
    requires one { word_offset one / PAGE_BYTES < length shared.now }
    requires two { word_offset two / PAGE_BYTES < length shared.now }
    ensures { result ≡ (get_or shared.now (word_offset one / PAGE_BYTES) false || get_or shared.now (word_offset two / PAGE_BYTES) false) }
{
    shared[word_offset(one) / PAGE_BYTES] || shared[word_offset(two) / PAGE_BYTES]
}

/// Whether the words of four addresses follow each other, all in one page that isn't shared.
#[inline(always)]
pub(crate) fn has_own_row(shared: &[bool], one: u32, two: u32, three: u32, four: u32) -> bool
    requires { word_offset one / PAGE_BYTES < length shared.now }
    ensures { result ≡ true → All (λ address. get_or shared.now (word_offset address / PAGE_BYTES) false ≡ false) (one ∷ two ∷ three ∷ four ∷ []) }
{
    let at = word_offset(one);
    two.wrapping_sub(one) == 4
        && three.wrapping_sub(one) == 8
        && four.wrapping_sub(one) == 12
        && at % PAGE_BYTES + 16 <= PAGE_BYTES
        && !shared[at / PAGE_BYTES]
}

/// Whether two ranges, or words that are written, may have bytes in a shared page.
#[inline(always)]
pub(crate) fn shares(shared: &[bool], first: Range, block: Range, words: &[(u32, u32)]) -> bool
    requires first { first.0 + first.1 < 2 ^ 33 }
    requires block { block.0 + block.1 < 2 ^ 33 }
    ensures { result ≡ false → (page : ℕ) → get_or shared.now page false ≡ true → list_any (touches page) (first ∷ block ∷ word_ranges words.now) ≡ false }
{
    if shares_range(shared, first) {
        return true;
    }
    if shares_range(shared, block) {
        return true;
    }
    shares_word(shared, words)
}

/// Whether a range has bytes in no page but one.
fn keeps_to(page: usize, range: Range) -> bool
    requires page { page < 2 ^ 33 }
    requires small { range.0 + range.1 < 2 ^ 33 }
    ensures { result ≡ true → (other : ℕ) → ¬ (other ≡ page) → touches other range ≡ false }
{
    range.1 == 0
        || range.0 / PAGE_BYTES == page && range.0 + range.1 <= PAGE_BYTES * page + PAGE_BYTES
}

/// Whether all words that are written are in one page.
fn have_page(page: usize, words: &[(u32, u32)]) -> bool
    ensures { result ≡ true → All (λ word. word_offset word.0 / PAGE_BYTES ≡ page) words.now }
{
    words
        .iter()
        .all(|word| word_offset(word.0) / PAGE_BYTES == page)
}

/// Tells where the bytes of a range begin, or those of the first word if the range has none; `None` without either.
fn begin_of(range: Range, words: &[(u32, u32)]) -> Option<usize>
    requires small { range.0 + range.1 < 2 ^ 33 }
    ensures { IfSome result (λ at. (at < 2 ^ 33) × (list_any (touches (at / PAGE_BYTES)) (range ∷ word_ranges words.now) ≡ true)) }
{
    if range.1 > 0 {
        return Some(range.0);
    }
    let (address, _) = words.first()?;
    Some(word_offset(*address))
}

/// Gives the only page that two ranges and words have bytes in. `None` if there are more, and also if only `block` has bytes.
pub(crate) fn one_page(first: Range, block: Range, words: &[(u32, u32)]) -> Option<usize>
    requires first { first.0 + first.1 < 2 ^ 33 }
    requires block { block.0 + block.1 < 2 ^ 33 }
    ensures touched { IfSome result (λ page. list_any (touches page) (first ∷ block ∷ word_ranges words.now) ≡ true) }
    ensures alone { IfSome result (λ page. (other : ℕ) → ¬ (other ≡ page) → list_any (touches other) (first ∷ block ∷ word_ranges words.now) ≡ false) }
{
    let page = begin_of(first, words)? / PAGE_BYTES;
    if keeps_to(page, first) && keeps_to(page, block) && have_page(page, words) {
        Some(page)
    } else {
        None
    }
}

/// Counts a page: 1 if it is shared and has such bytes, else 0.
fn wants(is_shared: bool, page: usize, first: Range, block: Range, words: &[(u32, u32)]) -> usize
    requires page { page ≤ MAX_PAGES }
    requires first { first.0 + first.1 < 2 ^ 33 }
    requires block { block.0 + block.1 < 2 ^ 33 }
    ensures { result ≡ (if is_shared && list_any (touches page) (first ∷ block ∷ word_ranges words.now) then 1 else 0) }
{
    if is_shared && is_touched(page, first, block, words) {
        1
    } else {
        0
    }
}

/// Counts the shared pages that have such bytes.
pub(crate) fn wanted(shared: &[bool], first: Range, block: Range, words: &[(u32, u32)]) -> usize
    requires few { length shared.now ≤ MAX_PAGES }
    requires first { first.0 + first.1 < 2 ^ 33 }
    requires block { block.0 + block.1 < 2 ^ 33 }
    ensures { result ≡ wanted_from 0 shared.now (first ∷ block ∷ word_ranges words.now) }
{
    let mut count = 0;
    for page in 0..shared.len() {
        count += wants(shared[page], page, first, block, words);
    }
    count
}
