//! A node at the fronts of the lines that come in.

ghost use Rattle.std.specs.Prelude.{◌≡◌, ◌<◌, Some, None};
ghost use Rattle.tp_turn.specs.Lower.{receiver, Link};
ghost use Rattle.tp_turn.specs.Fronts.{FrontAnswers, OnLine, OnLink};
ghost use Rattle.tp_turn.specs.Moments.{IsNodeOf, Done, moment_of};

use crate::left::Left;
use crate::take::TAKES;
use tp_book::{Book, Refusal};
use tp_law_machine::carries_byte;
use tp_net::line_of;
use tp_node::Node;

/// Lets a node take the token at the front of a line that leads to it, or close the line at its Marker. If nothing can be done it answers
/// why, and leaves the node and the book as they are.
fn act_on_front(
    book: &mut Book,
    node: &mut Node,
    number: u8,
    link: u8,
    line: u16,
) -> Result<Option<Left>, Refusal>
    requires goes { receiver book.old.state.start.wires line ≡ Some (Link number link) }
    requires idle { book.old.ready ≡ None }
    requires is { IsNodeOf book.old number node.old }
    ensures answer { FrontAnswers number line result (moment_of book.old node.old) (moment_of book.new node.new) }
    ensures is { IsNodeOf book.new number node.new }
{
    book.known();
    if book.marker_ready(line) {
        if !book.recorded(number as usize) {
            return Ok(Some(Left::Marked));
        }
        book.close_line(line);
        return Ok(None);
    }
    match book.ready_take(line) {
        Ok(token) => {
            carries_byte(token);
            match node.take(link, token) {
                Ok(sent) => {
                    let _note = book.commit_take(line, sent);
                    Ok(None)
                }
                Err(_) => {
                    book.give_back(line);
                    Ok(Some(Left::NoFrame))
                }
            }
        }
        Err(Refusal::NothingToTake) => Ok(Some(Left::Empty)),
        Err(Refusal::JournalFull) => Ok(Some(Left::JournalFull)),
        Err(refusal) => Err(refusal),
    }
}

/// Lets a node do at the front of a line that leads to it what a turn may do there. Answers why it left the line.
fn act_on_line(
    book: &mut Book,
    node: &mut Node,
    number: u8,
    link: u8,
    line: u16,
) -> Result<Left, Refusal>
    requires goes { receiver book.old.state.start.wires line ≡ Some (Link number link) }
    requires idle { book.old.ready ≡ None }
    requires is { IsNodeOf book.old number node.old }
    ensures done { Done number (OnLine number line result) (moment_of book.old node.old) (moment_of book.new node.new) }
    ensures is { IsNodeOf book.new number node.new }
{
    for _done in 0..TAKES {
        if let Some(left) = act_on_front(book, node, number, link, line)? {
            return Ok(left);
        }
    }
    Ok(Left::Enough)
}

/// Takes and closes at the line that comes in on a link, if there is one.
pub(crate) fn act_on_link(
    book: &mut Book,
    node: &mut Node,
    number: u8,
    link: u8,
) -> Result<Left, Refusal>
    requires link { link < 4 }
    requires idle { book.old.ready ≡ None }
    requires is { IsNodeOf book.old number node.old }
    ensures done { Done number (OnLink number link result) (moment_of book.old node.old) (moment_of book.new node.new) }
    ensures is { IsNodeOf book.new number node.new }
{
    book.known();
    match book.receiver(4 * number as u16 + link as u16) {
        Some(end) => {
            let line = line_of(book.nodes(), end);
            act_on_line(book, node, number, link, line as u16)
        }
        None => Ok(Left::NoWire),
    }
}
