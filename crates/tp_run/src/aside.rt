//! When a worker rests because its turns are too short.

ghost use Rattle.std.specs.Prelude.{◌≡◌, ◌<◌, ◌≤◌, ◌+◌, ◌*◌, ◌^◌, min, None, Some};

/// After how many turns a worker checks how many steps they had.
const COUNTED: u64 = 64;

/// How many steps these turns must have, so that several threads make more steps than one: 160 a turn, on average.
const ENOUGH: u64 = 10_240;

/// How many microseconds a worker's first rest takes.
const SHORTEST: u64 = 250;

/// How many microseconds a rest takes at most.
const LONGEST: u64 = 8_000;

/// A worker's count of its turns and of their steps since its last check, and how many microseconds its next rest takes.
#[derive(Drop)]
pub(crate) struct Aside {
    turns: u64,
    steps: u64,
    rest: u64,
}

/// Doubles a rest of `rest` microseconds, up to [`LONGEST`].
fn longer(rest: u64) -> u64
    ensures longer { rest < 2 ^ 63 → result ≡ min (rest * 2) LONGEST }
    ensures longest { result ≤ LONGEST }
{
    rest.saturating_mul(2).min(LONGEST)
}

impl Aside {
    /// Begins the count, with no turns and the shortest rest.
    pub(crate) fn new() -> Aside
        ensures { (result.turns ≡ 0) × (result.steps ≡ 0) × (result.rest ≡ SHORTEST) }
    {
        Aside {
            turns: 0,
            steps: 0,
            rest: SHORTEST,
        }
    }

    /// Counts a turn of `steps` steps. After each [`COUNTED`] turns it checks them: if they had fewer than [`ENOUGH`] steps, it answers for how many
    /// microseconds the worker should rest, longer each time. Otherwise it answers `None`, and the next rest is the shortest again.
    pub(crate) fn count(&mut self, steps: u16) -> Option<u64>
        ensures early { self.old.turns + 1 < COUNTED → (result ≡ None) × (self.new.turns ≡ self.old.turns + 1) × (self.new.rest ≡ self.old.rest) }
        ensures steps { self.old.turns + 1 < COUNTED → self.old.steps + steps < 2 ^ 64 → self.new.steps ≡ self.old.steps + steps }
        ensures short { COUNTED ≤ self.old.turns + 1 → self.old.steps + steps < ENOUGH →
            (result ≡ Some self.old.rest) × (self.old.rest < 2 ^ 63 → self.new.rest ≡ min (self.old.rest * 2) LONGEST) }
        ensures long { COUNTED ≤ self.old.turns + 1 → ENOUGH ≤ self.old.steps + steps → (result ≡ None) × (self.new.rest ≡ SHORTEST) }
        ensures anew { COUNTED ≤ self.old.turns + 1 → (self.new.turns ≡ 0) × (self.new.steps ≡ 0) }
    {
        self.turns = self.turns.saturating_add(1);
        self.steps = self.steps.saturating_add(u64::from(steps));
        if self.turns < COUNTED {
            return None;
        }
        let made = self.steps;
        let rest = self.rest;
        self.turns = 0;
        self.steps = 0;
        if made < ENOUGH {
            self.rest = longer(rest);
            Some(rest)
        } else {
            self.rest = SHORTEST;
            None
        }
    }
}
