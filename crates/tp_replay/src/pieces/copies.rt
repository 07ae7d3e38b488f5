//! Lines that are copied.

ghost use Rattle.std.specs.Prelude.{◌≡◌, ◌≤◌, ◌<◌, ℕ, [], IfOk, length, set};
ghost use Rattle.tp_model.specs.Network.{on_line};
ghost use Rattle.tp_replay.specs.Copies.{Copies};

use std::alloc::{AllocError, Global};
use tp_net::Lines;

/// Puts a line's tokens on an empty line of its number.
fn copy_line(from: &Lines, to: &mut Lines, line: usize)
    requires there { line < length from.now }
    requires room { line < length to.old }
    requires empty { on_line to.old line ≡ [] }
    ensures { to.new ≡ set to.old line (on_line from.now line) }
{
    for at in 0..from.len(line) {
        let Some(token) = from.get(line, at) else {
            unreachable!()
        };
        to.push(line, token);
    }
}

/// Puts the tokens of each line from `first` on and before `past` on the empty line of its number.
pub(crate) fn copy_lines(from: &Lines, to: &mut Lines, first: usize, past: usize)
    requires order { first ≤ past }
    requires there { past ≤ length from.now }
    requires room { past ≤ length to.old }
    requires empty { (line : ℕ) → first ≤ line → line < past → on_line to.old line ≡ [] }
    ensures { Copies first past from.now to.old to.new }
{
    for line in first..past {
        copy_line(from, to, line);
    }
}

/// Copies the lines. `AllocError` if memory is out.
pub(crate) fn copy_of(alloc: Global, lines: &Lines) -> Result<Lines, AllocError>
    ensures { IfOk result (λ copy. copy ≡ lines.now) }
{
    let mut copy = Lines::new(alloc, lines.count())?;
    copy_lines(lines, &mut copy, 0, lines.count());
    Ok(copy)
}
