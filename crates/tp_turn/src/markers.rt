//! Lines that are closed at the Markers at their fronts.

ghost use Rattle.std.specs.Prelude.{◌≡◌, ◌<◌};
ghost use Rattle.tp_turn.specs.Moments.{IsNodeOf, Done, moment_of};
ghost use Rattle.tp_turn.specs.Whole.{ClosesFront, Closes};

use crate::settling::record_asked;
use tp_book::Book;
use tp_net::line_of;
use tp_node::Node;

/// Closes the line that comes in on a link, if a Marker is at its front and the node has recorded. The tokens after the Marker stay on the
/// line.
fn close_front(book: &mut Book, node: &Node, number: u8, link: u8)
    requires link { link < 4 }
    requires is { IsNodeOf book.old number node.now }
    ensures done { Done number (ClosesFront number link) (moment_of book.old node.now) (moment_of book.new node.now) }
    ensures is { IsNodeOf book.new number node.now }
{
    let _node = node;
    book.known();
    if !book.recorded(number as usize) {
        return;
    }
    let Some(end) = book.receiver(4 * number as u16 + link as u16) else {
        return;
    };
    let line = line_of(book.nodes(), end) as u16;
    if book.marker_ready(line) {
        book.close_line(line);
    }
}

/// Has a node record if it is asked to. Then, on links 0 to 3 in order, closes the line that comes in, if a Marker is at its front and the
/// node has recorded. Takes nothing, and runs nothing.
pub(crate) fn answer_markers(book: &mut Book, node: &mut Node, number: u8)
    requires is { IsNodeOf book.old number node.old }
    ensures done { Done number (Closes number) (moment_of book.old node.old) (moment_of book.new node.new) }
    ensures is { IsNodeOf book.new number node.new }
{
    record_asked(book, node, number);
    book.known();
    if !book.recorded(number as usize) {
        return;
    }
    for link in 0..4 {
        close_front(book, node, number, link);
    }
}
