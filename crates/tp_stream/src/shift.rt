//! What workers and the flusher tell each other while both work.

ghost use Rattle.std.specs.Prelude.{◌≡◌, ◌↔◌, ◌≤◌, ◌+◌, ◌*◌, true, false, None, IfErr, IfSome};
ghost use Rattle.tp_stream.specs.Outcomes.{noted_outcome, refusal_number, refused_of};
ghost use Rattle.tp_stream.specs.Quiet.{HadNoWork};
ghost use Rattle.tp_stream.specs.Streamed.{CameOfTurns};

use crate::crew::Crew;
use crate::fault::StreamFault;
use crate::rounds::rests;
use std::sync::Wait;
use std::sync::atomic::{AtomicBool, AtomicU64, Ordering};
use std::time::Duration;
use tp_model::limits::MAX_GROUP;
use tp_node::Why;
use tp_work::{Turn, TurnFault};

/// How many microseconds the flusher sleeps if no turn is left or too few entries were made. No turn wakes it.
const SLEEP: u64 = 500;

/// The number for a turn that was refused for lack of memory.
const MEMORY: u64 = 1;

/// The number for a turn that was refused because the book is broken. It is the greater one, so it is told if turns were refused for both reasons.
const BROKEN: u64 = 2;

/// Shifts of workers that stay, one after the other. It needs no lock.
///
/// Of the shift that was opened last:
/// - `turns`: how many turns it may have
/// - `left`: how many of them are left
/// - `idle`: how many of the last turns in a row had nothing to do
/// - `idle_at_most`: how many of these don't end it yet
/// - `is_over`: whether it is to end
///
/// Of all shifts:
/// - `made`: how many entries were made, or a greater number
/// - `has_halted`: whether a node has halted
/// - `refusal`: the greatest number of a refused turn, by `refusal_number`
#[derive(Drop)]
pub(crate) struct Shift {
    pub(crate) crew: Crew,
    turns: AtomicU64,
    left: AtomicU64,
    idle: AtomicU64,
    idle_at_most: u64,
    made: AtomicU64,
    is_over: AtomicBool,
    has_halted: AtomicBool,
    refusal: AtomicU64,
}

/// The right to make one turn of the open shift. Only [`Shift::draw`] gives it, and the turn takes it.
#[derive(Drop)]
pub(crate) struct Drawn {
    _turn: (),
}

/// Says whether a process had nothing to do in a turn, and whether it is a node that has halted.
fn seen_of(turn: &Turn) -> (bool, bool)
    ensures nothing { result.0 ≡ true ↔ HadNoWork turn.now }
    ensures halted { IfSome turn.now.ran (λ ran. result.1 ≡ true ↔ (ran.why ≡ Why.Halted)) }
    ensures host { turn.now.ran ≡ None → result.1 ≡ false }
{
    match &turn.ran {
        None => (turn.takes == 0, false),
        Some(ran) => {
            let (rests, halted) = rests(ran.why());
            (turn.takes == 0 && ran.count() == 0 && rests, halted)
        }
    }
}

/// What a shift keeps of a turn that was refused: whether that ends the shift, and the number for its reason.
#[derive(Clone, Copy)]
struct Refused {
    ends: bool,
    number: u64,
}

/// Gives the number for why a turn was refused. It is 0 if that is no fault: room was lacking, or no process was there.
fn refusal_number(fault: TurnFault) -> u64
    ensures { result ≡ refusal_number fault }
{
    match fault {
        TurnFault::Empty | TurnFault::JournalFull => 0,
        TurnFault::Memory => MEMORY,
        TurnFault::StoreBroken => BROKEN,
    }
}

/// Gives what a shift keeps of a refused turn. It ends the shift, unless no process was there.
fn refused_of(fault: TurnFault) -> Refused
    ensures { result ≡ refused_of fault }
{
    Refused {
        ends: fault != TurnFault::Empty,
        number: refusal_number(fault),
    }
}

/// Gives the fault for the greatest number of refused turns; `Ok` if only room was lacking.
fn outcome_of(number: u64) -> Result<(), StreamFault>
    ensures value { result ≡ noted_outcome number }
    ensures begun { IfErr result CameOfTurns }
{
    match number {
        0 => Ok(()),
        MEMORY => Err(StreamFault::Memory),
        _ => Err(StreamFault::NotStored),
    }
}

impl Shift {
    /// Begins with no open shift. A shift ends early once more than 2 × (`nodes` + 1) turns in a row had nothing to do.
    pub(crate) fn new(nodes: u8) -> Shift
        ensures { result.idle_at_most ≡ 2 * (nodes + 1) }
    {
        Shift {
            crew: Crew::new(),
            turns: AtomicU64::new(0),
            left: AtomicU64::new(0),
            idle: AtomicU64::new(0),
            idle_at_most: 2 * (u64::from(nodes) + 1),
            made: AtomicU64::new(0),
            is_over: AtomicBool::new(false),
            has_halted: AtomicBool::new(false),
            refusal: AtomicU64::new(0),
        }
    }

    /// Opens a shift of `turns` turns, if none is open, and wakes the workers. Answers how many entries were made before, or a greater number. First
    /// it takes away the turns that the shift before had left. So all turns that late workers draw are counted.
    pub(crate) fn open(&self, turns: u64) -> u64 {
        self.left.store(0, Ordering::SeqCst);
        self.idle.store(0, Ordering::SeqCst);
        self.turns.store(turns, Ordering::SeqCst);
        self.is_over.store(false, Ordering::SeqCst);
        let made = self.made.load(Ordering::SeqCst);
        self.left.store(turns, Ordering::SeqCst);
        self.crew.call();
        made
    }

    /// Takes one of the turns that are left; `None` if none is left, or if the shift is to end.
    pub(crate) fn draw(&self) -> Option<Drawn> {
        if self.is_over.load(Ordering::SeqCst) {
            return None;
        }
        match self.left.fetch_update(
            Ordering::SeqCst,
            Ordering::SeqCst,
            |left| left.checked_sub(1),
        ) {
            Ok(_) => Some(Drawn { _turn: () }),
            Err(_) => None,
        }
    }

    /// Whether no more turns are made in this shift.
    fn is_out(&self) -> bool {
        self.is_over.load(Ordering::SeqCst) || self.left.load(Ordering::SeqCst) == 0
    }

    /// Ends the shift: no more turns are made.
    pub(crate) fn stop(&self) {
        self.is_over.store(true, Ordering::SeqCst);
    }

    /// Tells whether a turn had nothing to do.
    fn tell_idle(&self, nothing: bool) {
        if !nothing {
            self.idle.store(0, Ordering::SeqCst);
        } else if self.idle.fetch_add(1, Ordering::SeqCst) >= self.idle_at_most {
            self.stop();
        }
    }

    /// Tells that a turn was refused.
    fn tell_refused(&self, refused: Refused) {
        self.refusal.fetch_max(refused.number, Ordering::SeqCst);
        if refused.ends {
            self.stop();
        }
    }

    /// Tells what a turn did, and that it made `count` entries. The flusher reads it when it is awake, or when its sleep is over.
    pub(crate) fn tell(&self, done: &Result<Turn, TurnFault>, count: u64) {
        self.made.fetch_add(count, Ordering::SeqCst);
        match done {
            Ok(turn) => {
                let (nothing, halted) = seen_of(turn);
                self.tell_idle(nothing);
                if halted {
                    self.has_halted.store(true, Ordering::SeqCst);
                }
            }
            Err(fault) => self.tell_refused(refused_of(*fault)),
        }
    }

    /// Tells that a worker makes no more turns in the open shift. The last worker wakes the flusher.
    pub(crate) fn leave(&self) {
        if self.crew.leave() {
            self.made.fetch_add(1, Ordering::SeqCst);
            self.made.wake_one();
        }
    }

    /// Whether the shift has ended: no more turns are made, and no worker is in one. A worker that comes later finds no turns left.
    fn has_ended(&self) -> bool {
        self.is_out() && self.crew.is_out()
    }

    /// Whether enough entries beyond `seen` were made to fill a group.
    pub(crate) fn is_due(&self, seen: u64) -> bool {
        self.made.load(Ordering::SeqCst).saturating_sub(seen) >= MAX_GROUP as u64
    }

    /// Waits until enough entries beyond `seen` were made to fill a group, or until it has slept for [`SLEEP`] microseconds and some were made.
    /// Answers how many were made in all; `None` once the shift has ended.
    pub(crate) fn wait<R: Wait>(&self, rt: &R, seen: u64) -> Option<u64> {
        let mut has_slept = false;
        for _ in rt.forever() {
            let made = self.made.load(Ordering::SeqCst);
            if self.has_ended() {
                return None;
            }
            let more = made.saturating_sub(seen);
            if more >= MAX_GROUP as u64 || has_slept && more > 0 {
                return Some(made);
            }
            self.made.park_timeout(
                rt,
                (made & 0xffff_ffff) as u32,
                Duration::from_micros(SLEEP),
            );
            has_slept = true;
        }
        None
    }

    /// How many turns were made in the shift that was opened last.
    pub(crate) fn count(&self) -> u64 {
        let left = self.left.load(Ordering::SeqCst);
        self.turns.load(Ordering::SeqCst).saturating_sub(left)
    }

    /// Whether a node has halted.
    pub(crate) fn has_halted(&self) -> bool {
        self.has_halted.load(Ordering::SeqCst)
    }

    /// Whether the shift ended because nothing was left to do.
    pub(crate) fn is_idle(&self) -> bool {
        self.idle.load(Ordering::SeqCst) > self.idle_at_most
    }

    /// Gives why turns were refused, as a fault; `Ok` if only room was lacking.
    pub(crate) fn outcome(&self) -> Result<(), StreamFault>
        ensures { IfErr result CameOfTurns }
    {
        outcome_of(self.refusal.load(Ordering::SeqCst))
    }
}
