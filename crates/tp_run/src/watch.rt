//! What workers and the flusher's thread tell each other.

ghost use Rattle.std.specs.Prelude.{◌≡◌, ◌<◌, ◌≤◌, ◌+◌, ◌-◌, ◌^◌, true, false, Ok, IfOk, OnErr};
ghost use Rattle.tp_run.specs.Lower.{after_begin, begin_refusal, IsAnswer, is_due};

use crate::beginning::{begin_where_due, missing_in};
use std::alloc::Global;
use std::sync::Wait;
use std::sync::atomic::{AtomicBool, AtomicU64, Ordering};
use std::time::Duration;
use tp_book::Refusal;
use tp_shared::{Locked, Naming};

/// How many turns are drawn until the entries are counted anew, and the flusher has a turn to make though none was made.
const LOOK_TURNS: u64 = 64;

/// How many microseconds the flusher sleeps if no entry was made. No turn wakes it, so a new entry waits for the device and for one such sleep until
/// the mark is above it.
const SLEEP: u64 = 500;

/// The first worker hasn't begun to make turns.
const UNBEGUN: u64 = 0;

/// The first worker makes turns.
const MAKES_TURNS: u64 = 1;

/// No turn is left, or the store has failed.
const ENDED: u64 = 2;

/// Gives at how many made entries to check the book again, if `missing` entries were missing after `made` were made. If `missing` is 0, a snapshot
/// has begun or can't begin; then nothing is checked until `count_anew`.
fn due_behind(made: u64, missing: u64) -> u64
    ensures soon { 0 < missing → result ≤ made + missing }
    ensures later { 0 < missing → made < 2 ^ 64 - 1 → made < result }
    ensures none { missing ≡ 0 → result ≡ 2 ^ 64 - 1 }
{
    if missing > 0 {
        made.saturating_add(missing)
    } else {
        u64::MAX
    }
}

/// What workers and the flusher share without a lock:
/// - `turns`: how many turns there are
/// - `drawn`: how many of them were drawn
/// - `made`: how many entries were made, or a greater number
/// - `ended`: whether the workers have ended
/// - `every`: how many entries since the kept cut begin a snapshot
/// - `due`: at how many made entries there may be as many
/// - `first`: whether the first worker has begun, makes turns, or has ended
#[derive(Drop)]
pub(crate) struct Watch {
    turns: u64,
    drawn: AtomicU64,
    made: AtomicU64,
    ended: AtomicBool,
    every: u64,
    due: AtomicU64,
    first: AtomicU64,
}

impl Watch {
    /// Begins a watch over `turns` turns, in which `every` entries since the kept cut begin a snapshot.
    pub(crate) fn new(turns: u32, every: u64) -> Watch
        ensures { (result.turns ≡ turns) × (result.every ≡ every) }
    {
        Watch {
            turns: turns.into(),
            drawn: AtomicU64::new(0),
            made: AtomicU64::new(0),
            ended: AtomicBool::new(false),
            every,
            due: AtomicU64::new(0),
            first: AtomicU64::new(UNBEGUN),
        }
    }

    /// Takes one of the turns that are left; `false` if none is. With the last one of [`LOOK_TURNS`] the flusher has a turn to make: a snapshot may
    /// go on without an entry. It wakes nobody; but if no turn is left, it wakes the workers that rest.
    pub(crate) fn draw(&self) -> bool {
        let before = self.drawn.fetch_add(1, Ordering::SeqCst);
        if before % LOOK_TURNS == LOOK_TURNS - 1 {
            self.count_anew();
            self.tell(1);
        }
        let is_left = before < self.turns;
        if !is_left {
            self.end_rests();
        }
        is_left
    }

    /// Wakes the workers that rest, because no turn is left, or because each would be refused.
    pub(crate) fn end_rests(&self) {
        self.first.store(ENDED, Ordering::SeqCst);
        self.first.wake_all();
    }

    /// Tells that the first worker begins to make turns.
    pub(crate) fn begin_first(&self) {
        self.first.store(MAKES_TURNS, Ordering::SeqCst);
    }

    /// Rests for `micros` microseconds, or until rests end. Doesn't rest unless the first worker makes turns.
    pub(crate) fn rest<R: Wait>(&self, rt: &R, micros: u64) {
        self.first
            .park_timeout(rt, MAKES_TURNS as u32, Duration::from_micros(micros));
    }

    /// Tells that a turn made at most `count` entries. The flusher reads it when it is awake, or when its sleep is over.
    pub(crate) fn tell(&self, count: u64) {
        if count > 0 {
            self.made.fetch_add(count, Ordering::SeqCst);
        }
    }

    /// Gives the count of entries made if there may be `every` since the kept cut, so that the book is worth checking; else `None`.
    pub(crate) fn made_when_due(&self) -> Option<u64> {
        let made = self.made.load(Ordering::SeqCst);
        if made < self.due.load(Ordering::SeqCst) {
            return None;
        }
        Some(made)
    }

    /// Begins a snapshot, under the book's lock, if as many entries were made since the kept cut as begin one. `made` were made in all: it notes after
    /// how many it is worth checking again. Answers, or fails, as `begin_where_due` does.
    pub(crate) fn begin<J: Naming>(
        &self,
        held: &mut Locked<J>,
        alloc: Global,
        made: u64,
    ) -> Result<bool, Refusal>
        ensures due { IfOk result (λ begun. begun ≡ is_due self.now.every held.old.book) }
        ensures begun { result ≡ Ok true → held.new ≡ record held.old { book = after_begin held.old.book } }
        ensures early { result ≡ Ok false → held.new ≡ held.old }
        ensures refused { is_due self.now.every held.old.book ≡ true → IsAnswer (begin_refusal held.old.book) result }
        ensures err { OnErr result (held.new ≡ held.old) }
    {
        let begun = begin_where_due(held, alloc, self.every);
        let missing = missing_in(held, self.every);
        self.due.store(due_behind(made, missing), Ordering::SeqCst);
        begun
    }

    /// Makes a worker count the entries since the kept cut before its next turn.
    pub(crate) fn count_anew(&self) {
        self.due.store(0, Ordering::SeqCst);
    }

    /// Tells that the workers have ended, and wakes the flusher.
    pub(crate) fn end(&self) {
        self.ended.store(true, Ordering::SeqCst);
        self.tell(1);
        self.made.wake_one();
    }

    /// Waits until the count of made entries isn't `seen`, and answers it; `None` once the workers have ended. Until then it sleeps for [`SLEEP`]
    /// microseconds, checks, and sleeps again.
    pub(crate) fn wait<R: Wait>(&self, rt: &R, seen: u64) -> Option<u64> {
        for _ in rt.forever() {
            if self.ended.load(Ordering::SeqCst) {
                return None;
            }
            let made = self.made.load(Ordering::SeqCst);
            if made != seen {
                return Some(made);
            }
            self.made.park_timeout(
                rt,
                (seen & 0xffff_ffff) as u32,
                Duration::from_micros(SLEEP),
            );
        }
        None
    }
}
