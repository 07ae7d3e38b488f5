//! Writing how far a stream has come.

ghost use Rattle.std.specs.Prelude.{◌≡◌, IfOk, string_bytes};
ghost use Rattle.tp_stream_files.specs.Said.{AppendsFront, written};

use crate::lines::{Line, text_of};
use crate::writing::write_front;
use std::alloc::{AllocError, Global};
use std::io::Write;

/// Gives the bytes of a line: over the line before it, in one row of the terminal, however narrow that is; or after the text that is there.
fn written(alloc: Global, is_over: bool, line: &Line) -> Result<String, AllocError>
    ensures { IfOk result (λ text. string_bytes text ≡ written is_over line.now) }
{
    let text = text_of(alloc, line)?;
    if is_over {
        format!(in alloc; "\r\x1b[?7l{text}\x1b[K\x1b[?7h")
    } else {
        format!(in alloc; "{text}\n")
    }
}

/// Writes a line. If memory runs out or the write fails, the line is dropped.
pub(crate) fn say_line<E: Write>(alloc: Global, err: &mut E, is_over: bool, line: &Line)
    ensures { AppendsFront (E.contents err.old) (E.contents err.new) (written is_over line.now) }
{
    if let Ok(text) = written(alloc, is_over, line) {
        let _ = write_front(err, text.as_bytes());
    }
}
