//! What is said of a stream on standard error.

ghost use Rattle.std.specs.Prelude.{◌≡◌, ◌*◌, [], ◌∷◌, None};
ghost use Rattle.tp_stream_files.specs.Notices.{HasCome, Noticed};
ghost use Rattle.tp_stream_files.specs.Said.{WasHeard, are_over};

use crate::clock::Onlooker;
use crate::lines::Meter;
use crate::saying::say_line;
use crate::{Ended, Listener, Output, Progress, Sink, Stopped};
use std::alloc::Global;
use std::io::Write;

/// Says on standard error how a stream goes. It has the writer, the ports that are attached to standard output and standard input, and when to say
/// how far the stream has come. It ignores failed writes.
#[derive(Drop)]
pub struct Teller<'a, E, W> {
    alloc: Global,
    err: &'a mut E,
    onlooker: &'a mut W,
    out: Option<u8>,
    input: Option<u8>,
    meter: Meter,
    /// Whether each line is written over the one before it.
    is_over: bool,
    /// Whether the last line isn't ended.
    is_open: bool,
}

impl<'a, E: Write, W: Onlooker> Teller<'a, E, W> {
    /// Begins to say that on a writer, and how far the stream has come every `seconds` seconds. On a terminal each line is written over the one
    /// before it, unless a port puts its output on a terminal.
    pub fn new(
        alloc: Global,
        err: &'a mut E,
        onlooker: &'a mut W,
        out: Option<u8>,
        input: Option<u8>,
        seconds: u32,
    ) -> Teller<'a, E, W>
        ensures meter { result.meter ≡ record { every = seconds * 1000; last = None } }
        ensures over { result.is_over ≡ are_over (W.terminal onlooker.old) (W.output_terminal onlooker.old) out }
    {
        let is_over = onlooker.is_terminal() && (out.is_none() || !onlooker.is_output_terminal());
        Teller {
            alloc,
            err,
            onlooker,
            out,
            input,
            meter: Meter::new(seconds),
            is_over,
            is_open: false,
        }
    }

    /// Ends the line that isn't ended.
    pub fn end(&mut self) {
        if self.is_open {
            let _ = self.err.write_all(b"\n");
            self.is_open = false;
        }
    }
}

/// Says at which position a port's output or input begins, after a word for it, if the port is `mine`. Ignores a failed write.
fn say_begin<E: Write>(err: &mut E, word: &str, mine: Option<u8>, port: u8, begin: u64) {
    if mine == Some(port) {
        let _ = write!(err, "{word} {port} {begin}\n");
    }
}

impl<'a, E: Write, W: Onlooker> Listener for Teller<'a, E, W> {
    fn output(&mut self, port: u8, position: u64) {
        say_begin(self.err, "out", self.out, port, position);
    }

    fn input(&mut self, port: u8, accepted: u64) {
        say_begin(self.err, "in", self.input, port, accepted);
    }

    fn progress(&mut self, progress: Progress)
        ensures told { Noticed (HasCome progress ∷ []) None None }
        ensures heard { WasHeard progress self.old.is_over (W.times self.old.onlooker.now) (W.times self.new.onlooker.now)
            self.old.meter self.new.meter (E.contents self.old.err.now) (E.contents self.new.err.now) }
    {
        let now = self.onlooker.now();
        if let Some(line) = self.meter.hear_then(now, progress) {
            say_line(self.alloc, self.err, self.is_over, &line);
            self.is_open = self.is_over;
        }
    }

    fn stopped(&mut self, node: u8, how: Stopped) {
        self.end();
        say_stopped(self.err, node, how);
    }
}

/// Says why a node does nothing any more. A failed write is ignored.
pub fn say_stopped<E: Write>(err: &mut E, node: u8, how: Stopped) {
    let _ = match how {
        Stopped::Halted { fault, at } => write!(err, "halted {node} {fault} at {at:08X}\n"),
        Stopped::Waits => write!(err, "waits {node}\n"),
    };
}

/// Says up to which position standard output was given an output, and how much of that is confirmed, if `out` says that it is this output.
fn say_output<S: Sink, E: Write>(err: &mut E, out: Option<u8>, output: &Output<S>) {
    let (written, confirmed) = (output.put(), output.confirmed());
    if out == Some(output.port()) {
        let _ = write!(err, " written {written} confirmed {confirmed}");
    }
}

/// Says the number of the next entry, up to which position standard output was given a port's output, how much of that is confirmed, and why the
/// stream ended.
pub fn say_end<S: Sink, E: Write>(
    err: &mut E,
    ended: Ended,
    out: Option<u8>,
    outputs: &[Output<S>],
) {
    let Ended { next, why } = ended;
    let _ = write!(err, "next {next}");
    for output in outputs {
        say_output(err, out, output);
    }
    let why = why.word();
    let _ = write!(err, " {why}\n");
}
