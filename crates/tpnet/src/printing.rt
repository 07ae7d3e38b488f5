//! Standard output, whose first byte comes after what was said before it.

use crate::backlog::Backlog;
use std::io;
use std::io::Write;
use std::time::Clock;

/// A writer that waits before its first byte until what was said is written: where a port's output begins is said first. But it waits for some
/// seconds at most, and never again: even if nobody reads what is said, each byte is written.
#[derive(Drop)]
pub(crate) struct Printing<'a, R, W: Drop> {
    rt: &'a R,
    to: W,
    /// What is said, until the first byte.
    before: Option<Backlog>,
}

impl<'a, R, W: Drop> Printing<'a, R, W> {
    /// Nothing was written. `before` is what is said.
    pub(crate) fn new(rt: &'a R, to: W, before: Backlog) -> Printing<'a, R, W> {
        Printing {
            rt,
            to,
            before: Some(before),
        }
    }
}

impl<'a, R: Clock, W: Write + Drop> Write for Printing<'a, R, W> {
    ghost contents = { λ printing. W.contents printing.to };

    fn write(&mut self, buf: &[u8]) -> io::Result<usize> {
        if let Some(before) = self.before.take() {
            before.wait_awhile(self.rt);
        }
        self.to.write(buf)
    }

    fn flush(&mut self) -> io::Result<()> {
        self.to.flush()
    }
}
