//! Whether anything is under way.

ghost use Rattle.std.specs.Prelude.{◌≡◌, ◌<◌, length};
ghost use Rattle.tp_book.specs.Lower.{list_all, on_line};
ghost use Rattle.tp_book.specs.Clear.{is_clear};

use crate::book::Book;
use crate::journal::Journal;
use tp_net::{Lines, is_marker};

/// Whether a line has no token but Markers.
fn is_clear(lines: &Lines, line: usize) -> bool
    requires { line < length lines.now }
    ensures { result ≡ is_clear (on_line lines.now line) }
{
    for at in 0..lines.len(line) {
        let Some(token) = lines.get(line, at) else {
            unreachable!()
        };
        if !is_marker(token) {
            return false;
        }
    }
    true
}

/// Whether no line has a token but Markers.
fn are_clear(lines: &Lines) -> bool
    ensures { result ≡ list_all is_clear lines.now }
{
    for line in 0..lines.count() {
        if !is_clear(lines, line) {
            return false;
        }
    }
    true
}

impl Journal {
    /// Whether nothing but Markers is under way on any line.
    fn is_clear(&self) -> bool
        ensures { result ≡ list_all is_clear self.now.state.lines }
    {
        are_clear(&self.lines)
    }
}

impl Book {
    /// Whether nothing but Markers is under way on any line.
    pub fn is_clear(&self) -> bool
        ensures { result ≡ list_all is_clear self.now.state.lines }
    {
        self.journal.is_clear()
    }
}
