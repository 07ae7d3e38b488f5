//! How many calls have failed.

ghost use Rattle.std.specs.Prelude.{◌≡◌, ◌+◌, ◌-◌, ◌^◌, min};

use crate::history::History;

/// A count with no bound, whose number at run time stops at the greatest one.
#[derive(Drop)]
pub struct Failures {
    count: u64,
    history: History,
    ghost counted: { count ≡ min history.told.failures (2 ^ 64 - 1) },
}

impl Failures {
    ghost use Rattle.tp_disk.specs.Failures.{failure_count};

    pub fn new() -> Failures
        ensures { failure_count result ≡ 0 }
    {
        Failures {
            count: 0,
            history: History::new(),
        }
    }

    /// Gives the count, up to the greatest number.
    pub fn get(&self) -> u64
        ensures { result ≡ min (failure_count self.now) (2 ^ 64 - 1) }
    {
        self.count
    }

    /// Counts one more.
    pub fn add(&mut self)
        ensures { failure_count self.new ≡ failure_count self.old + 1 }
    {
        self.history = self.history.failed();
        self.count = self.count.saturating_add(1);
    }
}
