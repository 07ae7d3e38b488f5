//! Who looks at a stream.

use crate::typed::{malformed, number_of, parted};
use std::io;
use tp_stream_files::{Onlooker, Times};

/// How many milliseconds go by between two readings of the clock, if a stream says by time how far it has come; which of them find that what was said
/// before isn't taken; and whether standard error and standard output are terminals.
#[derive(Clone, Copy)]
pub(crate) struct Looks {
    pace: u64,
    stuck: Stuck,
    is_terminal: bool,
    is_output_terminal: bool,
}

/// Looks that find what was said untaken: those from number `from` on, the first one being 1, that are before number `until`.
#[derive(Clone, Copy)]
struct Stuck {
    from: u64,
    until: u64,
}

impl Stuck {
    /// What words begin with, as `stuck=3-5`, including the last one said; and the words after. If they begin otherwise, no reading is one.
    fn read(words: &str) -> io::Result<(Stuck, &str)> {
        let Some(rest) = words.strip_prefix("stuck=") else {
            return Ok((Stuck { from: 0, until: 0 }, words));
        };
        let (range, rest) = parted(rest);
        let Some((from, last)) = range.split_once('-') else {
            return Err(malformed());
        };
        let (from, until) = (number_of(from)?, number_of(last)?.saturating_add(1));
        Ok((Stuck { from, until }, rest))
    }

    /// Whether the reading of this number is one.
    fn has(self, number: u64) -> bool {
        self.from <= number && number < self.until
    }
}

impl Looks {
    /// What holds if a story says nothing else.
    pub(crate) const PLAIN: Looks = Looks {
        pace: 250,
        stuck: Stuck { from: 0, until: 0 },
        is_terminal: false,
        is_output_terminal: false,
    };

    /// What words say: the milliseconds, the readings that find what was said untaken, and the streams that are terminals.
    pub(crate) fn read(words: &str) -> io::Result<Looks> {
        let (pace, rest) = parted(words);
        let (stuck, terminals) = Stuck::read(rest)?;
        let (is_terminal, is_output_terminal) = match terminals {
            "" => (false, false),
            "stderr" => (true, false),
            "stdout" => (false, true),
            "stderr stdout" => (true, true),
            _ => return Err(malformed()),
        };
        Ok(Looks {
            pace: number_of(pace)?,
            stuck,
            is_terminal,
            is_output_terminal,
        })
    }

    /// Who looks so at a stream that begins.
    pub(crate) fn steps(self) -> Steps {
        Steps {
            looks: self,
            now: 0,
            asked: 0,
            times: Times::new(),
        }
    }
}

/// A clock that goes on by this much each time that it is read.
#[derive(Drop)]
pub(crate) struct Steps {
    looks: Looks,
    now: u64,
    asked: u64,
    times: Times,
}

impl Onlooker for Steps {
    ghost times = { λ steps. steps.times.told };

    ghost terminal = { λ steps. steps.looks.is_terminal };

    ghost output_terminal = { λ steps. steps.looks.is_output_terminal };

    fn now(&mut self) -> Option<u64> {
        self.now = self.now.saturating_add(self.looks.pace);
        self.asked = self.asked.saturating_add(1);
        let is_stuck = self.looks.stuck.has(self.asked);
        let now = if is_stuck { None } else { Some(self.now) };
        self.times = self.times.answered(now);
        now
    }

    fn is_terminal(&self) -> bool {
        self.looks.is_terminal
    }

    fn is_output_terminal(&self) -> bool {
        self.looks.is_output_terminal
    }
}
