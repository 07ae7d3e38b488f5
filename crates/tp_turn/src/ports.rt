//! The host at the fronts of the lines that come to its ports.

ghost use Rattle.std.specs.Prelude.{◌≡◌, ◌<◌, ◌||◌, Some, None, length};
ghost use Rattle.tp_turn.specs.Lower.{receiver, AtPort};
ghost use Rattle.tp_turn.specs.Hosted.{HostDone, PortAnswers, OnPortLine, OnPort, HostTurns, is_for_room};

use crate::left::Left;
use crate::take::TAKES;
use tp_book::{Book, Refusal};
use tp_net::line_of;

/// Lets a port take the token at the front of a line that leads to it, or close the line at its Marker. If nothing can be done it answers
/// why, and leaves the book as it is.
fn act_on_front(book: &mut Book, port: u8, line: u16) -> Result<Option<Left>, Refusal>
    requires goes { receiver book.old.state.start.wires line ≡ Some (AtPort port) }
    requires idle { book.old.ready ≡ None }
    ensures { PortAnswers line result book.old book.new }
{
    book.known();
    if book.marker_ready(line) {
        if !book.recorded(book.nodes()) {
            return Ok(Some(Left::Marked));
        }
        book.close_line(line);
        return Ok(None);
    }
    match book.host_take(line) {
        Ok(_note) => Ok(None),
        Err(Refusal::NothingToTake) => Ok(Some(Left::Empty)),
        Err(Refusal::PortFull) => Ok(Some(Left::PortFull)),
        Err(Refusal::JournalFull) => Ok(Some(Left::JournalFull)),
        Err(refusal) => Err(refusal),
    }
}

/// Lets a port do at the front of a line that leads to it what a turn may do there. Answers why it left the line.
fn act_on_line(book: &mut Book, port: u8, line: u16) -> Result<Left, Refusal>
    requires goes { receiver book.old.state.start.wires line ≡ Some (AtPort port) }
    requires idle { book.old.ready ≡ None }
    ensures { HostDone (OnPortLine line result) book.old book.new }
{
    for _done in 0..TAKES {
        if let Some(left) = act_on_front(book, port, line)? {
            return Ok(left);
        }
    }
    Ok(Left::Enough)
}

/// Takes and closes at the line that comes to a port, if there is one.
fn act_on_port(book: &mut Book, port: u8) -> Result<Left, Refusal>
    requires there { port < length book.old.state.ports }
    requires idle { book.old.ready ≡ None }
    ensures { HostDone (OnPort port result) book.old book.new }
{
    book.known();
    let nodes = book.nodes();
    match book.receiver(4 * nodes as u16 + port as u16) {
        Some(end) => {
            let line = line_of(nodes, end);
            act_on_line(book, port, line as u16)
        }
        None => Ok(Left::NoWire),
    }
}

/// Whether the journal was full for a port so far, or is for the one that was left now.
fn is_full_by(before: bool, left: Left) -> bool
    ensures { result ≡ (before || is_for_room left) }
{
    before || matches!(left, Left::JournalFull)
}

/// Does the host's turn. Each of its ports in order takes at most three tokens of the line that comes to it. A Marker is one of these, and
/// closes the line. A port leaves a line that is empty, whose byte its outputs have no room for, or for which the journal is full. Answers
/// how many tokens were taken, without Markers.
///
/// Fails with `JournalFull` if it was full for a port, once all had their turn. `StoreBroken` and `Memory` end the turn where they come.
/// What was done before stays. There is no other error.
pub fn host_turn(book: &mut Book) -> Result<u64, Refusal>
    requires { book.old.ready ≡ None }
    ensures { HostDone (HostTurns result) book.old book.new }
{
    book.known();
    let first = book.next();
    let ports = book.ports() as u8;
    let mut full = false;
    for port in 0..ports {
        book.known();
        let left = act_on_port(book, port)?;
        full = is_full_by(full, left);
    }
    if full {
        return Err(Refusal::JournalFull);
    }
    let last = book.next();
    Ok(last - first)
}
