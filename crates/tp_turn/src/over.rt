//! Lines that are closed while tokens come before their Markers.

ghost use Rattle.std.specs.Prelude.{◌≡◌, ◌<◌, length};
ghost use Rattle.tp_turn.specs.Hosted.{HostDone};
ghost use Rattle.tp_turn.specs.Over.{ClosesOver, ClosesAll};

use tp_book::Book;

/// Takes the Marker off a line, also from after other tokens, if its receiver has recorded.
fn close_over(book: &mut Book, line: u16)
    requires there { line < length book.old.state.lines }
    ensures { HostDone (ClosesOver line) book.old book.new }
{
    if book.is_closable(line) {
        book.close_over(line);
    }
}

/// Takes each Marker off its line, also from after other tokens, if its receiver has recorded. The tokens before it belong to the cut, and
/// stay on the line. So a snapshot in which all have recorded has a whole cut, whatever the lines have. It makes no entry, and takes no
/// memory.
pub fn close_all(book: &mut Book)
    ensures { HostDone ClosesAll book.old book.new }
{
    book.known();
    let lines = 4 * book.nodes() + book.ports();
    for line in 0..lines {
        book.known();
        close_over(book, line as u16);
    }
}
