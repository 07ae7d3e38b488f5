//! A writer that this process waits for, even if the writer doesn't wait itself.

ghost use Rattle.tpnet.specs.Lower.{WritesAtMost, WriteAppends};

use std::io;
use std::io::{ErrorKind, Write};
use std::sync::Wait;
use std::thread::sleep;
use std::time::{Clock, Duration};

/// How many milliseconds a writer is left alone that didn't wait until it could take bytes.
const PAUSE: u64 = 20;

/// Hands bytes to a writer, and waits until it takes some, even if it doesn't wait itself: whoever shares a pipe or a terminal with this process may
/// have made it so (O_NONBLOCK).
fn write_waiting<R: Wait + Clock, W: Write>(rt: &R, writer: &mut W, buf: &[u8]) -> io::Result<usize>
    ensures bound { WritesAtMost result buf.now }
    ensures bytes { WriteAppends (W.contents writer.old) (W.contents writer.new) result buf.now }
{
    for _ in rt.forever() {
        match writer.write(buf) {
            Err(error) if error.kind() == ErrorKind::WouldBlock => {
                sleep(rt, Duration::from_millis(PAUSE));
            }
            done => return done,
        }
    }
    Err(io::Error::from(ErrorKind::WouldBlock))
}

/// A writer that this process waits for.
#[derive(Drop)]
pub(crate) struct Patient<R: Drop, W: Drop> {
    rt: R,
    writer: W,
}

impl<R: Drop, W: Drop> Patient<R, W> {
    pub(crate) fn new(rt: R, writer: W) -> Patient<R, W> {
        Patient { rt, writer }
    }
}

impl<R: Wait + Clock + Drop, W: Write + Drop> Write for Patient<R, W> {
    ghost contents = { λ patient. W.contents patient.writer };

    fn write(&mut self, buf: &[u8]) -> io::Result<usize> {
        write_waiting(&self.rt, &mut self.writer, buf)
    }

    fn flush(&mut self) -> io::Result<()> {
        self.writer.flush()
    }
}
