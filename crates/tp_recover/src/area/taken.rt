//! An area, read whole before its entries are replayed.

ghost use Rattle.std.specs.Prelude.{◌≤◌, IfOk};
ghost use Rattle.tp_recover.specs.Lower.{AreTrue, WereTrue, areas_end, content_of, Counts};
ghost use Rattle.tp_recover.specs.Reading.{has_read, ReadAnswer, LeavesAlone, LeavesNothingNew};
ghost use Rattle.tp_recover.specs.Taken.{taken_area, taken_of, IsTaken};

use crate::area::start::{Start, read_start};
use crate::journal::ahead::read_rows;
use crate::journal::rows::Rows;
use crate::unopened::Unopened;
use std::alloc::Global;
use tp_area::Head;
use tp_disk::Disk;
use tp_model::OpenFault;

/// An area before its entries are replayed: what comes before its groups and the entries that are readable. Then the place of the closed
/// gate after them all, or the first fault.
#[derive(Drop)]
pub(crate) struct Taken {
    pub(crate) start: Start,
    pub(crate) rows: Rows,
    pub(crate) end: Result<u64, OpenFault>,
}

/// Reads an area, and replays nothing.
pub(crate) fn read_taken<D: Disk>(
    alloc: Global,
    disk: &mut D,
    head: &Head,
    second: bool,
) -> Result<Taken, Unopened>
    requires { areas_end head.now.areas ≤ D.size_of disk.old }
    ensures counts { Counts (has_read result) (D.size_of disk.old) (D.size_of disk.new) (D.failures_of disk.old) (D.failures_of disk.new) }
    ensures premise { WereTrue (D.reads disk.old) (D.reads disk.new) }
    ensures kept { LeavesAlone result (D.state disk.old).now (D.state disk.new).now }
    ensures leaves { LeavesNothingNew (D.state disk.old) (D.state disk.new) }
    ensures taken { IfOk result (IsTaken head.now second) }
    ensures is { AreTrue (D.reads disk.new) → ReadAnswer taken_of (taken_area head.now second (content_of head.now.areas second (D.state disk.old).now.bytes)) result }
{
    let start = read_start(alloc, disk, head, second)?;
    let (rows, end) = read_rows(
        alloc,
        disk,
        head,
        second,
        start.front.form,
        start.front.base,
    )?;
    Ok(Taken { start, rows, end })
}
