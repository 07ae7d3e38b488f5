//! The words that `clap` takes with `run --stream`.

ghost use Rattle.std.specs.Prelude.{◌≡◌, true, IfSome, drop};
ghost use Rattle.tp_words.specs.Lines.{begins_run, is_used};

use crate::forms::{EXPLAIN, NO_EXPLAIN, WAIT_LOCK, WRITTEN};
use crate::numbers::{after_first, is_word};
use crate::rules::is_used;
use crate::words::{Form, Word};

/// What `tpnet run --stream` refuses.
pub const STREAM_REFUSALS: &str =
    "P is a port's number, as in tpnet show. Byte number q of port P is at offset q of its FILE.
Each port with a wire needs an --out or a --discard.
Without --turns and --until-quiet it runs until whoever reads standard output has ended, or until nothing is left to do and no input can come:
each input has come to its end, or its port is full of bytes that no node takes.
The last line on standard error is next M, and why it ended: quiet, turns, gone, stopped or halted (status 3).
Before that line come the nodes that have halted, such as halted 1 BadAddress at 80000107, or that wait though there is input, such as waits 2.
After quiet --explain says whether processes wait for other nodes (on a terminal it does so anyway): tpnet waits shows them.
To end it call tpnet stop DEVICE in another terminal. Ctrl-C and kill end it without a last line; nothing that was shown is lost.
Refusals (status 1):
  InUse         another tpnet runs, formats or compacts DEVICE: wait for it (--wait-lock), or end it
  ReadFailed    an input can't be read (a FIFO: take --in P=- < FIFO), or DEVICE can't be opened to read and write, or be
                read, or is no regular file: look at paths and rights
  NotFormatted  DEVICE is none: make one with tpnet format
  BadVersion    DEVICE is of another version of tpnet
  NoOpenArea    neither area is open: format was stopped, or the device was written over
  Damaged AT    what is at offset AT breaks its rule: restore a copy
  Short P H C   port P's FILE has H bytes, and C were confirmed: it was cut, or is another file
  Long P H U    port P's FILE has H bytes, and the port put out U in all: it is another file, and stays as it is
  Gone P H C    --have P=H, and C bytes were confirmed: those from H on aren't on DEVICE any more
  NotShown P H S  --have P=H, and only S bytes were shown
  ShortInput P H A  port P's input FILE has H bytes, and the port has accepted A: it was cut, or isn't the port's input
  DeviceFailed  DEVICE, an output's FILE or standard output can't be written or synced: look at rights and room; a FILE that
                is no regular file can't be synced: take --out P=- > FILE, or --discard P
  JournalFull   DEVICE has no room for further entries: tpnet compact DEVICE, then the same command again
  Memory        there is no memory left
A fault of the words ends with status 2. So do these, once DEVICE is held:
  an output that goes into the file of DEVICE, of an input, of another output or of standard error
  a --spare above a node's pages, or a port that isn't there
  a port with a wire, if neither --out nor --discard names it
  a --stop-file, if something is at PATH already, if that can't be checked, or if PATH is a file of the stream
  an --out, an --in or a standard stream whose file is DEVICE.stop
  a DEVICE.stop that tpnet stop left and that can't be removed";

/// The options that `run` has with `--stream` alone.
const STREAM_OPTIONS: &[&str] = &[
    "out",
    "have",
    "discard",
    "until-quiet",
    "stop-on-halt",
    "stop-file",
    "progress",
    "progress-every",
];

/// Whether the words after the program's name begin with `run`.
fn begins_run(words: &[String]) -> bool
    ensures { result ≡ begins_run words.now }
{
    match words.first() {
        Some(word) => is_word(word, "run"),
        None => false,
    }
}

/// Whether the words are those of `run`.
pub fn are_of_run(words: &[String]) -> bool
    ensures { result ≡ begins_run (drop 1 words.now) }
{
    begins_run(after_first(words))
}

/// An option among the words of `run` that it has with `--stream` alone.
pub fn stream_option(words: &[String]) -> Option<&'static str>
    ensures { IfSome result (λ id. is_used id.now (drop 1 words.now) ≡ true) }
{
    if !are_of_run(words) {
        return None;
    }
    for id in STREAM_OPTIONS {
        if is_used(id, after_first(words)) {
            return Some(*id);
        }
    }
    None
}

/// `run` with `--stream`: where the bytes of ports go and come from, how turns are made, and when the stream ends.
pub const STREAM: Form = Form {
    name: "run",
    about: "Opens a device and runs its network, whose ports write to files or standard output and read from files or standard input meanwhile",
    words: &[
        EXPLAIN,
        NO_EXPLAIN,
        WRITTEN,
        Word::Mark("stream", "attach ports to files and standard streams"),
        WAIT_LOCK,
        Word::Many(
            "out",
            "P=FILE",
            "where port P's output goes: a file, which is made if it isn't there and never emptied, or standard output (-)",
        ),
        Word::Many(
            "have",
            "P=Z",
            "how many bytes of port P, from position 0, the reader of standard output has already; what a reader leaves in a pipe is lost",
        ),
        Word::Many("discard", "P", "discard port P's output"),
        Word::Many(
            "in",
            "P=FILE",
            "port P's whole input, from position 0: a file, or standard input (-); what the port has accepted before is skipped",
        ),
        Word::Value(
            "turns",
            "N",
            "turns that are made at most, 0 to 4294967295 (no bound)",
        ),
        Word::Flag(
            "until-quiet",
            "end once no node has a step, no line a token that can be taken, and no input is left",
        ),
        Word::Flag("stop-on-halt", "end once a node halts, with status 3"),
        Word::Value(
            "stop-file",
            "PATH",
            "end once something is at PATH, which must be free at first: checked after each flush except while workers make turns; what was shown is confirmed",
        ),
        Word::Flag(
            "progress",
            "say on standard error every 10 seconds how far it has come (on a terminal it does so anyway)",
        ),
        Word::Value("progress-every", "S", "say so every S seconds, 1 to 3600"),
        Word::Value(
            "workers",
            "W",
            "threads that make turns at most, 1 to 16 (as many as there are processors, up to 4)",
        ),
        Word::Value(
            "quantum",
            "Q",
            "steps that a turn may run, 1 to 4096 (1024)",
        ),
        Word::Value(
            "spare",
            "S",
            "spare frames of each node, for writes while pages are frozen, 0 to the pages of the smallest node (4)",
        ),
        Word::Value(
            "every",
            "E",
            "entries since the kept cut after which a snapshot begins, 1 to 4294967295 (by default, and at the latest, when the journal is half full)",
        ),
    ],
};
