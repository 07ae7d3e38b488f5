//! Who looks at standard error, for lines by time.

ghost use Rattle.std.specs.Prelude.{◌≡◌, []};

use crate::backlog::Backlog;
use std::time::Clock;
use tp_program::time_of;
use tp_stream_files::{Onlooker, Times};

/// Has the system's clock, and was told whether standard error and standard output are terminals. While what was said isn't written it has no time: a
/// line that may be left out would only queue up.
#[derive(Drop)]
pub(crate) struct Looker<'a, R> {
    rt: &'a R,
    backlog: Backlog,
    is_terminal: bool,
    is_output_terminal: bool,
    times: Times,
}

impl<'a, R> Looker<'a, R> {
    /// No time was asked for. `backlog` counts what was said and isn't written.
    pub(crate) fn new(
        rt: &'a R,
        backlog: Backlog,
        is_terminal: bool,
        is_output_terminal: bool,
    ) -> Looker<'a, R>
        ensures terminals { (result.is_terminal ≡ is_terminal) × (result.is_output_terminal ≡ is_output_terminal) }
        ensures times { result.times.told ≡ [] }
    {
        Looker {
            rt,
            backlog,
            is_terminal,
            is_output_terminal,
            times: Times::new(),
        }
    }
}

impl<'a, R: Clock> Onlooker for Looker<'a, R> {
    ghost times = { λ looker. looker.times.told };

    ghost terminal = { λ looker. looker.is_terminal };

    ghost output_terminal = { λ looker. looker.is_output_terminal };

    fn now(&mut self) -> Option<u64> {
        let now = time_of(self.rt.monotonic(), self.backlog.is_empty());
        self.times = self.times.answered(now);
        now
    }

    fn is_terminal(&self) -> bool {
        self.is_terminal
    }

    fn is_output_terminal(&self) -> bool {
        self.is_output_terminal
    }
}
