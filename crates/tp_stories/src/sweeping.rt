//! Lines that are played again and again, if another call of their first command fails each time.

use crate::failing::read_failing;
use crate::faulty::Plan;
use crate::typed::{number_of, parted};
use std::alloc::Global;
use std::io;
use std::io::Write;

/// The lines, and what is told of them.
#[derive(Drop)]
pub(crate) struct Sweep {
    /// How calls fail.
    pub(crate) plan: Plan,
    /// How many calls are counted one by one: of more that come to one end it is told that they are more.
    few: u64,
    /// The lines.
    pub(crate) lines: Vec<String>,
    /// What came of the calls that failed one after another last.
    text: Vec<u8>,
    /// How many they are.
    calls: u64,
    /// What is told of those before.
    pub(crate) told: Vec<u8>,
}

/// The number that a word is; if there is none, one that no count passes.
fn few_of(word: &str) -> io::Result<u64> {
    match word {
        "" => Ok(u64::MAX),
        _ => number_of(word),
    }
}

impl Sweep {
    /// What words say, of lines that are still to come: `HOW FILES FEW`.
    pub(crate) fn read(alloc: Global, words: &str) -> io::Result<Sweep> {
        let (how, rest) = parted(words);
        let (files, few) = parted(rest);
        let (plan, few) = (read_failing(how, files)?, few_of(few)?);
        Ok(Sweep {
            plan,
            few,
            lines: Vec::new(alloc),
            text: Vec::new(alloc),
            calls: 0,
            told: Vec::new(alloc),
        })
    }

    /// Tells what came of the calls that failed last.
    fn tell(&mut self) -> io::Result<()> {
        let (few, calls) = (self.few, self.calls);
        match calls {
            0 => return Ok(()),
            _ if calls > few => write!(self.told, "= more than {few} calls\n")?,
            _ => write!(self.told, "= calls {calls}\n")?,
        }
        Ok(self.told.extend_from_slice(self.text.as_slice())?)
    }

    /// Takes what came of a further call that failed.
    pub(crate) fn add(&mut self, text: &[u8]) -> io::Result<()> {
        if self.calls > 0 && self.text.as_slice() == text {
            self.calls = self.calls.saturating_add(1);
            return Ok(());
        }
        self.tell()?;
        self.text.clear();
        self.text.extend_from_slice(text)?;
        self.calls = 1;
        Ok(())
    }

    /// Takes what came if no call failed.
    pub(crate) fn end(&mut self, text: &[u8]) -> io::Result<()> {
        self.tell()?;
        self.told.extend_from_slice(b"= no call\n")?;
        Ok(self.told.extend_from_slice(text)?)
    }
}
