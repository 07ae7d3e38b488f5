//! The open part of a node's turn: it records, takes and closes, and makes no run.

ghost use Rattle.std.specs.Prelude.{◌≡◌, None};
ghost use Rattle.tp_turn.specs.Moments.{IsNodeOf, Done, moment_of};
ghost use Rattle.tp_turn.specs.Settled.{Records, SettledAs};

use crate::front::act_on_link;
use tp_book::{Book, Refusal};
use tp_node::Node;

/// Has a node record if it is asked to: it is frozen, and a Marker goes onto each of its wired lines. Takes nothing, and runs nothing.
pub fn record_asked(book: &mut Book, node: &mut Node, number: u8)
    requires is { IsNodeOf book.old number node.old }
    ensures done { Done number (Records number) (moment_of book.old node.old) (moment_of book.new node.new) }
    ensures is { IsNodeOf book.new number node.new }
{
    book.known();
    if book.asked(number) {
        node.freeze();
        book.record(number);
    }
}

/// Has a node record if it is asked to. Then, on links 0 to 3 in order, it takes at most three tokens of the line that comes in. A Marker
/// is one of these, and closes the line. It leaves a line that is empty, whose token finds no frame in memory, or for which the journal is
/// full. Nothing runs. Answers how many tokens were taken, without Markers.
///
/// `StoreBroken` and `Memory` end the turn where they come, and what was done before stays. There is no other error.
pub fn settle(book: &mut Book, node: &mut Node, number: u8) -> Result<u64, Refusal>
    requires idle { book.old.ready ≡ None }
    requires is { IsNodeOf book.old number node.old }
    ensures done { Done number (SettledAs number result) (moment_of book.old node.old) (moment_of book.new node.new) }
    ensures is { IsNodeOf book.new number node.new }
{
    let first = book.next();
    record_asked(book, node, number);
    for link in 0..4 {
        act_on_link(book, node, number, link)?;
    }
    let last = book.next();
    Ok(last - first)
}
