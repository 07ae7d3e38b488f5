//! Bytes that a separate thread reads, so that nobody else waits for them.

ghost use Rattle.std.specs.Prelude.{◌≡◌, ◌↔◌, ◌<◌, ◌≤◌, [], ◌∷◌, ◌++◌, false, true, length, None, Some, Ok, is_err, IfErr, IfNone, IfOk, IfSome};
ghost use Rattle.tp_stream_files.specs.Lower.{ReadConsumes, MAX_HELD};
ghost use Rattle.tp_stream_files.specs.Trace.{count_answered, gave};

use crate::SourceFailed;
use crate::feeds::{Feed, read_some};
use crate::trace::Trace;
use crossbeam_channel::{Receiver, Sender, bounded};
use std::alloc::Global;
use std::io::Read;
use std::sync::Wait;
use std::thread;
use std::thread::Threads;
use std::time::{Clock, Duration};
use tp_model::limits::MAX_HELD;

/// At most this many pieces wait to be taken. The thread has read one more, and waits with it.
const PIECES: usize = 4;

/// What one read gave: how many bytes, 0 at the end, or that it failed. The bytes are in memory of their own, so that passing a piece on copies none.
#[derive(Drop)]
struct Piece {
    came: Result<usize, SourceFailed>,
    bytes: Vec<u8>,
    ghost few: { count_answered came ≤ length bytes.items },
    ghost fit: { length bytes.items ≤ MAX_HELD },
}

/// Reads the next piece. Fails if there is no memory for one; then nothing is read.
fn read_piece<I: Read>(alloc: Global, reader: &mut I) -> Piece
    ensures bytes { ReadConsumes (I.remaining reader.old) (I.remaining reader.new) result.came result.bytes.items }
    ensures room { IfOk result.came (λ count. 0 < length result.bytes.items) }
{
    let Ok(mut bytes) = Vec::from_elem(alloc, 0, MAX_HELD) else {
        return Piece {
            came: Err(SourceFailed),
            bytes: Vec::new(alloc),
        };
    };
    let came = read_some(reader, &mut bytes);
    Piece { came, bytes }
}

/// Whether a piece is the last one that is read: it has no bytes, because its reader is at the end, or the read failed.
fn is_last(piece: &Piece) -> bool
    ensures { (result ≡ false) ↔ (0 < count_answered piece.now.came) }
{
    matches!(piece.came, Ok(0) | Err(_))
}

/// Sends the next piece of a reader. Answers whether somebody may take another one.
fn send_piece<R: Wait + AllocGlobal, I: Read>(
    rt: &R,
    reader: &mut I,
    pieces: &Sender<Piece>,
) -> bool {
    let piece = read_piece(rt.alloc(), reader);
    let is_last = is_last(&piece);
    pieces.send(rt, piece).is_ok() && !is_last
}

/// Sends each piece of a reader, until its end, until a read fails, or until nobody takes them.
fn send_pieces<R: Wait + AllocGlobal, I: Read + Drop>(rt: &R, reader: I, pieces: Sender<Piece>) {
    let mut reader = reader;
    for _ in rt.forever() {
        if !send_piece(rt, &mut reader, &pieces) {
            break;
        }
    }
}

/// Gives the bytes of a piece. Fails if there is no piece, since its reader has gone without a word.
fn give(piece: Option<Piece>, out: &mut [u8; MAX_HELD]) -> Result<usize, SourceFailed>
    ensures few { IfOk result (λ count. count ≤ length out.new) }
    ensures piece { IfSome piece (λ piece. (result ≡ piece.came) × (gave result out.new ≡ gave piece.came piece.bytes.items)) }
    ensures none { IfNone piece (is_err result ≡ true) }
{
    let Some(piece) = piece else {
        return Err(SourceFailed);
    };
    let count = piece.came?;
    out[..count].copy_from_slice(&piece.bytes[..count]);
    Ok(count)
}

/// Gives the next piece, if it comes within `millis` milliseconds; else whether one may come later.
fn receive<R: Wait + Clock>(rt: &R, pieces: &Receiver<Piece>, millis: u64) -> Result<Piece, bool> {
    if millis == 0 {
        return match pieces.try_recv(rt) {
            Ok(piece) => Ok(piece),
            Err(error) => Err(error.is_empty()),
        };
    }
    match pieces.recv_timeout(rt, Duration::from_millis(millis)) {
        Ok(piece) => Ok(piece),
        Err(error) => Err(error.is_timeout()),
    }
}

/// Bytes that a separate thread reads. The thread isn't joined, since a read that waits can't be ended.
#[derive(Drop)]
pub struct Threaded<R: Drop> {
    rt: R,
    pieces: Option<Receiver<Piece>>,
    /// A piece that came and wasn't taken.
    ready: Option<Piece>,
    is_over: bool,
    trace: Trace,
}

/// Begins a thread that reads all of a reader; `None` if there is no memory for it, or no thread.
fn begin<R: Threads + Wait + AllocGlobal + Copy + Send + 'static, I: Read + Drop + Send + 'static>(
    rt: R,
    reader: I,
) -> Option<Receiver<Piece>> {
    let alloc: Global = rt.alloc();
    let (to, from) = bounded(alloc, PIECES).ok()?;
    match thread::spawn(&rt, move || send_pieces(&rt, reader, to)) {
        Ok(_) => Some(from),
        Err(_) => None,
    }
}

impl<R: Threads + Wait + AllocGlobal + Copy + Drop + Send + 'static> Threaded<R> {
    /// Gives the bytes of a reader, and begins its thread. If there is no reader or no thread, each read fails.
    pub fn new<I: Read + Drop + Send + 'static>(rt: R, reader: Option<I>) -> Threaded<R> {
        let pieces = match reader {
            Some(reader) => begin(rt, reader),
            None => None,
        };
        Threaded {
            rt,
            pieces,
            ready: None,
            is_over: false,
            trace: Trace::new(),
        }
    }
}

impl<R: Wait + Drop> Threaded<R> {
    /// Waits for the next piece, and gives it.
    fn take(&mut self) -> Option<Piece>
        ensures same { (self.new.trace.told ≡ self.old.trace.told) × (self.new.is_over ≡ self.old.is_over) }
        ensures ready { IfSome self.old.ready (λ piece. result ≡ Some piece) }
        ensures left { self.new.ready ≡ None }
    {
        if let Some(piece) = self.ready.take() {
            return Some(piece);
        }
        let pieces = self.pieces.as_ref()?;
        pieces.recv(&self.rt).ok()
    }

    /// Keeps a piece that came until it is taken. If none came, answers whether one may come later.
    fn keep(&mut self, came: Result<Piece, bool>) -> bool
        ensures piece { IfOk came (λ piece. (result ≡ false) × (self.new ≡ record self.old { ready = Some piece })) }
        ensures none { IfErr came (λ may_come. (result ≡ may_come) × (self.new ≡ self.old)) }
    {
        match came {
            Ok(piece) => {
                self.ready = Some(piece);
                false
            }
            Err(may_come) => may_come,
        }
    }

    /// Waits for the next piece, and gives its bytes. After the end it gives none.
    fn next_piece(&mut self, out: &mut [u8; MAX_HELD]) -> Result<usize, SourceFailed>
        ensures few { IfOk result (λ count. count ≤ length out.new) }
        ensures same { self.new.trace.told ≡ self.old.trace.told }
        ensures over { self.old.is_over ≡ true → (result ≡ Ok 0) × (self.new.ready ≡ self.old.ready) }
        ensures ready { self.old.is_over ≡ false → IfSome self.old.ready (λ piece. gave result out.new ≡ gave piece.came piece.bytes.items) }
        ensures left { self.old.is_over ≡ false → self.new.ready ≡ None }
        ensures ended { (self.new.is_over ≡ true) ↔ (result ≡ Ok 0) }
    {
        if self.is_over {
            return Ok(0);
        }
        let came = give(self.take(), out);
        self.is_over = matches!(came, Ok(0));
        came
    }
}

impl<R: Wait + Clock + Drop> Feed for Threaded<R> {
    ghost given = { λ feed. feed.trace.told };

    fn would_wait(&mut self, millis: u64) -> bool
        ensures same { self.new.trace.told ≡ self.old.trace.told }
        ensures ready { IfSome self.old.ready (λ piece. (result ≡ false) × (self.new.ready ≡ Some piece)) }
        ensures over { self.old.is_over ≡ true → result ≡ false }
        ensures left { self.new.is_over ≡ self.old.is_over }
    {
        if self.is_over || self.ready.is_some() {
            return false;
        }
        let Some(pieces) = &self.pieces else {
            return false;
        };
        let came = receive(&self.rt, pieces, millis);
        self.keep(came)
    }

    fn next(&mut self, out: &mut [u8; MAX_HELD]) -> Result<usize, SourceFailed>
        ensures few { IfOk result (λ count. count ≤ length out.new) }
        ensures noted { self.new.trace.told ≡ self.old.trace.told ++ gave result out.new ∷ [] }
        ensures over { self.old.is_over ≡ true → result ≡ Ok 0 }
        ensures ended { (self.new.is_over ≡ true) ↔ (result ≡ Ok 0) }
    {
        let came = self.next_piece(out);
        self.trace = match came {
            Ok(count) => self.trace.gave(&out[..count]),
            Err(SourceFailed) => self.trace.give_failed(),
        };
        came
    }
}
