//! Standard input that isn't read before the first call.

ghost use Rattle.std.specs.Prelude.{◌≡◌, [], None};
ghost use Rattle.tpnet.specs.Lower.{ReadsAtMost, ReadConsumes};

use crossbeam_channel::{Receiver, Sender, bounded};
use std::io;
use std::io::{ErrorKind, Input, Read};
use std::sync::Wait;
use std::thread::{Threads, sleep};
use std::time::{Clock, Duration};
use tp_model::limits::MAX_HELD;
use tp_stream_files::{Feed, SourceFailed, Threaded, Trace};

/// How many milliseconds a reader is left alone that didn't wait for bytes.
const PAUSE: u64 = 20;

/// The next bytes of a reader. It waits for them even if the reader doesn't wait itself: whoever shares a pipe or a terminal with this process may
/// have made it so (O_NONBLOCK).
fn read_waiting<R: Wait + Clock, I: Read>(
    rt: &R,
    reader: &mut I,
    buf: &mut [u8],
) -> io::Result<usize>
    ensures bound { ReadsAtMost result buf.new }
    ensures bytes { ReadConsumes (I.remaining reader.old) (I.remaining reader.new) result buf.new }
{
    for _ in rt.forever() {
        match reader.read(buf) {
            Err(error) if error.kind() == ErrorKind::WouldBlock => {
                sleep(rt, Duration::from_millis(PAUSE));
            }
            done => return done,
        }
    }
    Err(io::Error::from(ErrorKind::WouldBlock))
}

/// A reader that reads nothing before it is told to; if nobody is left who could tell it, a read fails.
#[derive(Drop)]
struct Gated<R: Drop, I: Drop> {
    rt: R,
    told: Option<Receiver<()>>,
    reader: I,
}

impl<R: Wait + Clock + Drop, I: Read + Drop> Read for Gated<R, I> {
    ghost remaining = { λ gated. I.remaining gated.reader };

    fn read(&mut self, buf: &mut [u8]) -> io::Result<usize> {
        if let Some(told) = &self.told {
            if told.recv(&self.rt).is_err() {
                return Err(io::Error::from(ErrorKind::BrokenPipe));
            }
            self.told = None;
        }
        read_waiting(&self.rt, &mut self.reader, buf)
    }
}

/// Standard input that reads nothing before it is told to, and who tells it. None if there is no memory for it: the reader has a buffer of 8 kB,
/// which is too large to be handed from call to call.
#[inline(never)]
fn gate_reader<R: Input<Reader = I> + AllocGlobal + Drop, I: Read + Drop>(
    rt: R,
) -> Option<(Sender<()>, Gated<R, Box<I>>)> {
    let reader = Box::new(rt.alloc(), rt.reader()).ok()?;
    let (to_tell, told) = bounded(rt.alloc(), 1).ok()?;
    let told = Some(told);
    Some((to_tell, Gated { rt, told, reader }))
}

/// Standard input, whose thread reads from the first call on: a stream that is refused before it makes one reads nothing of it.
#[derive(Drop)]
pub(crate) struct Late<R: Drop> {
    rt: R,
    /// Who tells the thread to read, until it is told.
    to_tell: Option<Sender<()>>,
    feed: Threaded<R>,
    trace: Trace,
}

impl<
    R: Input<Reader = I> + Threads + Wait + Clock + AllocGlobal + Copy + Drop + Send + 'static,
    I: Read + Drop + Send + 'static,
> Late<R> {
    /// Standard input, unread so far.
    pub(crate) fn new(rt: R) -> Late<R>
        ensures { result.trace.told ≡ [] }
    {
        let (to_tell, reader) = match gate_reader(rt) {
            Some((to_tell, reader)) => (Some(to_tell), Some(reader)),
            None => (None, None),
        };
        Late {
            rt,
            to_tell,
            feed: Threaded::new(rt, reader),
            trace: Trace::new(),
        }
    }
}

impl<R: Wait + Drop> Late<R> {
    /// Tells the thread to read, if it wasn't told.
    fn begin(&mut self)
        ensures same { self.new.trace.told ≡ self.old.trace.told }
        ensures told { self.new.to_tell ≡ None }
    {
        if let Some(to_tell) = self.to_tell.take() {
            let _ = to_tell.send(&self.rt, ());
        }
    }
}

impl<R: Wait + Clock + Drop> Feed for Late<R> {
    ghost given = { λ late. late.trace.told };

    fn would_wait(&mut self, millis: u64) -> bool {
        self.begin();
        self.feed.would_wait(millis)
    }

    fn next(&mut self, out: &mut [u8; MAX_HELD]) -> Result<usize, SourceFailed> {
        self.begin();
        let came = self.feed.next(out);
        self.trace = match came {
            Ok(count) => self.trace.gave(&out[..count]),
            Err(SourceFailed) => self.trace.give_failed(),
        };
        came
    }
}
