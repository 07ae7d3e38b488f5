//! Standard error, which a thread of its own writes, so that nobody else waits for it.

use crate::backlog::Backlog;
use crate::waiting::Patient;
use crossbeam_channel::{Receiver, Sender, unbounded};
use std::io::Write;
use std::sync::Wait;
use std::thread::{JoinHandle, Threads};
use std::time::Clock;
use std::{io, thread};

/// The thread that writes, and who hands it what is to be written.
#[derive(Drop)]
struct Writer {
    pieces: Sender<Vec<u8>>,
    thread: JoinHandle<()>,
}

/// A writer whose thread takes all that is written at once, and hands it on in order. If there is no memory, or no thread, a piece is handed
/// on here, after all before it.
#[derive(Drop)]
pub(crate) struct Apart<R: Drop, W: Drop> {
    rt: R,
    to: W,
    backlog: Backlog,
    writer: Option<Writer>,
}

/// Hands on each piece, until none comes any more. One that isn't taken is dropped.
fn hand_on<R: Wait + Clock + Copy + Drop, W: Write + Drop>(
    rt: R,
    to: W,
    pieces: Receiver<Vec<u8>>,
    backlog: Backlog,
) {
    let mut to = Patient::new(rt, to);
    for piece in pieces.iter(&rt) {
        let _ = to.write_all(piece.as_slice());
        backlog.take();
    }
}

/// Begins the thread. None if there is no memory for it, or no thread.
fn begin<
    R: Threads + Wait + Clock + AllocGlobal + Copy + Drop + Send + 'static,
    W: Write + Drop + Send + 'static,
>(rt: R, to: W, backlog: &Backlog) -> Option<Writer> {
    let shared = backlog.shared();
    if !shared.is_counted() {
        return None;
    }
    let (pieces, from) = unbounded(rt.alloc()).ok()?;
    match thread::spawn(&rt, move || hand_on(rt, to, from, shared)) {
        Ok(thread) => Some(Writer { pieces, thread }),
        Err(_) => None,
    }
}

impl<
    R: Threads + Wait + Clock + AllocGlobal + Copy + Drop + Send + 'static,
    W: Write + Copy + Drop + Send + 'static,
> Apart<R, W> {
    /// Nothing was written, and the thread is begun. `backlog` counts what it hasn't handed on.
    pub(crate) fn new(rt: R, to: W, backlog: Backlog) -> Apart<R, W> {
        let writer = begin(rt, to, &backlog);
        Apart {
            rt,
            to,
            backlog,
            writer,
        }
    }
}

impl<R: Threads + Wait + AllocGlobal + Drop, W: Drop> Apart<R, W> {
    /// Hands a piece to the thread. Whether that was done.
    fn hand_over(&self, buf: &[u8]) -> bool {
        let (Some(writer), Ok(piece)) = (&self.writer, Vec::from_slice(self.rt.alloc(), buf)) else {
            return false;
        };
        self.backlog.add();
        let is_sent = writer.pieces.send(&self.rt, piece).is_ok();
        if !is_sent {
            self.backlog.take();
        }
        is_sent
    }

    /// Waits until all was handed on.
    pub(crate) fn end(self) {
        let Apart { rt, writer, .. } = self;
        if let Some(Writer { pieces, thread }) = writer {
            drop(pieces);
            thread.join(&rt);
        }
    }
}

impl<R: Threads + Wait + Clock + AllocGlobal + Copy + Drop, W: Write + Copy + Drop> Write
    for Apart<R, W> {
    fn write(&mut self, buf: &[u8]) -> io::Result<usize> {
        if self.hand_over(buf) {
            return Ok(buf.len());
        }
        self.backlog.wait(&self.rt);
        Patient::new(self.rt, self.to).write(buf)
    }

    /// Waits until all was handed on, but for some seconds at most.
    fn flush(&mut self) -> io::Result<()> {
        self.backlog.wait_awhile(&self.rt);
        Ok(())
    }
}
