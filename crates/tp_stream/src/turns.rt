//! How far turns have come.

ghost use Rattle.std.specs.Prelude.{◌≡◌, ◌<◌, ◌≤◌, ◌+◌, ◌-◌, ◌/◌, ◌^◌, ◌&&◌, ◌||◌, min, not, true, false, nat_le, nat_lt, if◌then◌else◌};
ghost use Rattle.tp_stream.specs.Endings.{IsBoundReached, is_bound_reached, is_done};
ghost use Rattle.tp_stream.specs.declared.turns.TheConstants.{HEAVY, MOST_SETTLED};

use crate::task::Task;

/// How often in a row the journal is settled in vain before it counts as full for ever.
const MOST_SETTLED: u32 = 64;

/// How many steps turns must have, on average over a round, to be worth threads.
const HEAVY: u64 = 160;

/// What a process did in its turn: whether it had nothing to do, whether it is a node that has halted, and how many steps it made.
#[derive(Clone, Copy)]
pub(crate) struct Did {
    pub(crate) nothing: bool,
    pub(crate) halted: bool,
    pub(crate) steps: u16,
}

impl Did {
    /// What a process did in a turn that was refused: no step, though it had something to do.
    pub(crate) fn refused() -> Did
        ensures { (result.nothing ≡ false) × (result.halted ≡ false) × (result.steps ≡ 0) }
    {
        Did {
            nothing: false,
            halted: false,
            steps: 0,
        }
    }
}

/// How far turns have come:
/// - `made`: how many turns were made
/// - `whose`: whose turn is next
/// - `idle`: how many of the last turns in a row had nothing to do, while no snapshot ran
/// - `beside`, `round`, `steps`: how many turns of this round were made while a snapshot ran, how many in all, and with how many steps
/// - `has_halted`: whether a node has halted
/// - `is_full`: whether the journal had no room for one more turn
/// - `is_busy`: whether there is so much more to do that threads are worth it
/// - `settled`: how often the journal was settled since a turn did something, or an output or input moved
#[derive(Drop)]
pub(crate) struct Turns {
    pub(crate) made: u64,
    pub(crate) whose: u8,
    pub(crate) idle: u32,
    beside: u32,
    round: u32,
    steps: u64,
    pub(crate) has_halted: bool,
    pub(crate) is_full: bool,
    pub(crate) is_busy: bool,
    settled: u32,
}

/// Gives whose turn comes after that of `whose`: the nodes in order, and then the host.
fn next_of(whose: u8, nodes: u8) -> u8
    ensures { result ≡ (if nat_lt whose nodes then whose + 1 else 0) }
{
    if whose < nodes { whose + 1 } else { 0 }
}

impl Turns {
    /// Begins with no turn. `has_halted` says whether a node has halted before.
    pub(crate) fn new(has_halted: bool) -> Turns
        ensures whose { result.whose ≡ 0 }
        ensures idle { result.idle ≡ 0 }
        ensures made { result.made ≡ 0 }
        ensures halted { result.has_halted ≡ has_halted }
        ensures round { (result.beside ≡ 0) × (result.round ≡ 0) × (result.steps ≡ 0) × (result.is_busy ≡ false) }
        ensures room { (result.is_full ≡ false) × (result.settled ≡ 0) }
    {
        Turns {
            made: 0,
            whose: 0,
            idle: 0,
            beside: 0,
            round: 0,
            steps: 0,
            has_halted,
            is_full: false,
            is_busy: false,
            settled: 0,
        }
    }

    /// Begins a round.
    pub(crate) fn begin(&mut self)
        ensures whose { self.new.whose ≡ self.old.whose }
        ensures idle { self.new.idle ≡ 0 }
        ensures made { self.new.made ≡ self.old.made }
        ensures busy { self.new.is_busy ≡ self.old.is_busy }
        ensures exact { self.new ≡ record self.old { idle = 0; beside = 0; round = 0; steps = 0; is_full = false } }
    {
        self.idle = 0;
        self.beside = 0;
        self.round = 0;
        self.steps = 0;
        self.is_full = false;
    }

    /// Ends a round. `were_all` says whether it made all turns that it may have. If it did, threads are worth it if its turns had [`HEAVY`] steps or
    /// more on average, something is left to do, and `may_be` allows threads. A round that a snapshot cut short changes nothing about that.
    pub(crate) fn end(&mut self, task: Task, nodes: u8, were_all: bool, may_be: bool)
        ensures whose { self.new.whose ≡ self.old.whose }
        ensures idle { self.new.idle ≡ self.old.idle }
        ensures made { self.new.made ≡ self.old.made }
        ensures busy { self.new.is_busy ≡ (may_be && not (is_done task self.old nodes) && (if were_all then nat_le self.old.round (self.old.steps / HEAVY) else self.old.is_busy)) }
        ensures same { self.new ≡ record self.old { is_busy = self.new.is_busy } }
    {
        let more = may_be && !self.is_done(task, nodes);
        let heavy = self.steps / HEAVY >= u64::from(self.round);
        self.is_busy = more && (were_all && heavy || !were_all && self.is_busy);
    }

    /// Notes that the journal has no room for one more turn.
    pub(crate) fn fill(&mut self)
        ensures whose { self.new.whose ≡ self.old.whose }
        ensures idle { self.new.idle ≡ self.old.idle }
        ensures made { self.new.made ≡ self.old.made }
        ensures busy { self.new.is_busy ≡ self.old.is_busy }
        ensures exact { self.new ≡ record self.old { is_full = true } }
    {
        self.is_full = true;
    }

    /// Notes that the journal is settled once more. The turns for that don't count, not even as turns that had nothing to do.
    pub(crate) fn settle(&mut self)
        ensures whose { self.new.whose ≡ self.old.whose }
        ensures idle { self.new.idle ≡ 0 }
        ensures made { self.new.made ≡ self.old.made }
        ensures busy { self.new.is_busy ≡ self.old.is_busy }
        ensures full { self.new.is_full ≡ false }
        ensures settled { self.old.settled < MOST_SETTLED → self.new.settled ≡ self.old.settled + 1 }
        ensures same { self.new ≡ record self.old { idle = 0; is_full = false; settled = self.new.settled } }
    {
        self.idle = 0;
        self.is_full = false;
        self.settled = self.settled.saturating_add(1);
    }

    /// Counts a turn of `whose`, in a network of `nodes` nodes. It is one that had nothing to do only if the process could do nothing, and no
    /// snapshot ran. Any turn that did something shows that settling wasn't in vain.
    pub(crate) fn count(&mut self, did: Did, is_running: bool, nodes: u8)
        ensures whose { self.new.whose ≡ (if nat_lt self.old.whose nodes then self.old.whose + 1 else 0) }
        ensures rests { 0 < self.new.idle → (did.nothing ≡ true) × (is_running ≡ false) }
        ensures one { self.new.idle ≤ self.old.idle + 1 }
        ensures made { self.new.made ≡ min (self.old.made + 1) (2 ^ 64 - 1) }
        ensures busy { self.new.is_busy ≡ self.old.is_busy }
        ensures halted { self.new.has_halted ≡ (self.old.has_halted || did.halted) }
        ensures settled { self.new.settled ≡ (if did.nothing then self.old.settled else 0) }
        ensures idle { self.new.idle ≡ (if did.nothing && not is_running then min (self.old.idle + 1) (2 ^ 32 - 1) else 0) }
        ensures beside { self.new.beside ≡ (if is_running then min (self.old.beside + 1) (2 ^ 32 - 1) else self.old.beside) }
        ensures round { self.new.round ≡ min (self.old.round + 1) (2 ^ 32 - 1) }
        ensures steps { self.new.steps ≡ min (self.old.steps + did.steps) (2 ^ 64 - 1) }
        ensures full { self.new.is_full ≡ self.old.is_full }
    {
        self.made = self.made.saturating_add(1);
        self.whose = next_of(self.whose, nodes);
        self.idle = if did.nothing && !is_running {
            self.idle.saturating_add(1)
        } else {
            0
        };
        if is_running {
            self.beside = self.beside.saturating_add(1);
        }
        self.round = self.round.saturating_add(1);
        self.steps = self.steps.saturating_add(u64::from(did.steps));
        self.has_halted = self.has_halted || did.halted;
        if !did.nothing {
            self.settled = 0;
        }
    }

    /// Counts `count` turns that workers made. `has_halted` says whether a node has halted in them, and `is_idle` whether they ended because nothing
    /// was left to do. None of them counts as one that had nothing to do.
    pub(crate) fn add(&mut self, count: u64, has_halted: bool, is_idle: bool)
        ensures whose { self.new.whose ≡ self.old.whose }
        ensures idle { self.new.idle ≡ 0 }
        ensures made { self.old.made + count < 2 ^ 64 → self.new.made ≡ self.old.made + count }
        ensures halted { self.new.has_halted ≡ (self.old.has_halted || has_halted) }
        ensures busy { self.new.is_busy ≡ (self.old.is_busy && not is_idle) }
        ensures same { self.new ≡ record self.old { made = self.new.made; idle = 0; has_halted = self.new.has_halted; is_busy = self.new.is_busy } }
    {
        self.made = self.made.saturating_add(count);
        self.idle = 0;
        self.has_halted = self.has_halted || has_halted;
        self.is_busy = self.is_busy && !is_idle;
    }

    /// Notes that no workers are there, or not yet. The next round has as many turns as without workers.
    pub(crate) fn stay_alone(&mut self)
        ensures whose { self.new.whose ≡ self.old.whose }
        ensures idle { self.new.idle ≡ self.old.idle }
        ensures exact { self.new ≡ record self.old { is_busy = false } }
    {
        self.is_busy = false;
    }

    /// Notes that an output or input has moved, so that settling wasn't in vain.
    pub(crate) fn moved(&mut self)
        ensures whose { self.new.whose ≡ self.old.whose }
        ensures idle { self.new.idle ≡ self.old.idle }
        ensures made { self.new.made ≡ self.old.made }
        ensures busy { self.new.is_busy ≡ self.old.is_busy }
        ensures settled { self.new.settled ≡ 0 }
        ensures exact { self.new ≡ record self.old { settled = 0 } }
    {
        self.settled = 0;
    }

    /// Whether the journal may be settled again: it was settled in vain fewer than [`MOST_SETTLED`] times.
    pub(crate) fn may_settle(&self) -> bool
        ensures { result ≡ nat_lt self.now.settled MOST_SETTLED }
    {
        self.settled < MOST_SETTLED
    }

    /// Whether each process, of `nodes` nodes and the host, had nothing to do in its last turn, while no snapshot ran.
    pub(crate) fn is_quiet(&self, nodes: u8) -> bool
        ensures { result ≡ nat_lt nodes self.now.idle }
    {
        self.idle > u32::from(nodes)
    }

    /// Whether all turns were made that the task allows. Without a bound the answer is always `false`.
    pub(crate) fn are_out(&self, task: Task) -> bool
        ensures value { result ≡ is_bound_reached task self.now }
        ensures out { result ≡ true → IsBoundReached task self.now }
    {
        match task.turns {
            Some(most) => self.made >= u64::from(most),
            None => false,
        }
    }

    /// Whether the stream ends because a node has halted.
    pub(crate) fn is_stopped(&self, task: Task) -> bool
        ensures { result ≡ (task.stop_on_halt && self.now.has_halted) }
    {
        task.stop_on_halt && self.has_halted
    }

    /// Whether no turn may be made, or nothing is left to do.
    fn is_done(&self, task: Task, nodes: u8) -> bool
        ensures { result ≡ is_done task self.now nodes }
    {
        self.are_out(task) || self.is_stopped(task) || self.is_quiet(nodes)
    }

    /// Whether the round is over: no turn may be made, nothing is left to do, or each process has had its turn while a snapshot runs. The snapshot
    /// then goes on in the flusher's next turn.
    pub(crate) fn is_round_over(&self, task: Task, nodes: u8) -> bool
        ensures { result ≡ (is_done task self.now nodes || nat_lt nodes self.now.beside) }
    {
        self.is_done(task, nodes) || self.beside > u32::from(nodes)
    }
}
