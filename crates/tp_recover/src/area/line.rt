//! The lines of a cut.

ghost use Rattle.std.specs.Prelude.{◌≡◌, ◌*◌, ◌+◌, ◌<◌, ◌≤◌, ◌^◌, true, map, length, drop, IfOk};
ghost use Rattle.tp_recover.specs.Lower.{AreTrue, WereTrue, Counts, lines_in, are_lines, OpenFault, tokens_on};
ghost use Rattle.tp_recover.specs.declared.unopened.Unopened.{Unopened};
ghost use Rattle.tp_recover.specs.Reading.{has_read, ReadAnswer, LeavesAlone, LeavesNothingNew};

use crate::reading::device::read_bytes;
use crate::unopened::Unopened;
use std::alloc::Global;
use tp_area::{LineTokens, line_in};
use tp_disk::Disk;
use tp_model::limits::LINE_BYTES;
use tp_model::{OpenFault, WireEnd};
use tp_net::MAX_LINES;

/// Decodes the tokens of the lines with `wires` from their records, one after the other. The first record is at `at`.
pub(crate) fn lines_in(
    alloc: Global,
    at: u64,
    wires: &[Option<WireEnd>],
    bytes: &[u8],
) -> Result<Vec<LineTokens>, Unopened>
    requires whole { length bytes.now ≡ LINE_BYTES * length wires.now }
    requires there { at + LINE_BYTES * length wires.now < 2 ^ 64 }
    ensures read { has_read result ≡ true }
    ensures lines { IfOk result (λ lines. are_lines wires.now (map tokens_on lines.items) ≡ true) }
    ensures is { ReadAnswer (λ lines. map tokens_on lines.items) (lines_in at wires.now bytes.now) result }
{
    let mut lines = Vec::new(alloc);
    let mut rest = bytes;
    for (line, wire) in wires.iter().enumerate() {
        let (record, behind) = rest.split_at(LINE_BYTES);
        let Some(tokens) = line_in(*wire, record) else {
            return Err(damaged(at, line));
        };
        let Ok(()) = lines.push(tokens) else {
            return Err(Unopened::Memory);
        };
        rest = behind;
    }
    Ok(lines)
}

/// Makes the fault that the line of this number is damaged, if the first record is at `at`.
fn damaged(at: u64, line: usize) -> Unopened
    requires { at + LINE_BYTES * line < 2 ^ 64 }
    ensures { result ≡ Unopened.Fault (OpenFault.Damaged (at + LINE_BYTES * line)) }
{
    Unopened::Fault(OpenFault::Damaged(at + (LINE_BYTES * line) as u64))
}

/// Reads the tokens of the lines with `wires`. Their records begin at `at`, one after the other.
pub(crate) fn read_lines<D: Disk>(
    alloc: Global,
    disk: &mut D,
    at: u64,
    wires: &[Option<WireEnd>],
) -> Result<Vec<LineTokens>, Unopened>
    requires few { length wires.now ≤ MAX_LINES }
    requires inside { at + LINE_BYTES * length wires.now ≤ D.size_of disk.old }
    requires counted { at + LINE_BYTES * length wires.now < 2 ^ 64 }
    ensures counts { Counts (has_read result) (D.size_of disk.old) (D.size_of disk.new) (D.failures_of disk.old) (D.failures_of disk.new) }
    ensures premise { WereTrue (D.reads disk.old) (D.reads disk.new) }
    ensures kept { LeavesAlone result (D.state disk.old).now (D.state disk.new).now }
    ensures leaves { LeavesNothingNew (D.state disk.old) (D.state disk.new) }
    ensures lines { IfOk result (λ lines. are_lines wires.now (map tokens_on lines.items) ≡ true) }
    ensures is { AreTrue (D.reads disk.new) → ReadAnswer (λ lines. map tokens_on lines.items) (lines_in at wires.now (drop at (D.state disk.old).now.bytes)) result }
{
    let bytes = read_bytes(alloc, disk, at, LINE_BYTES * wires.len())?;
    lines_in(alloc, at, wires, &bytes)
}
