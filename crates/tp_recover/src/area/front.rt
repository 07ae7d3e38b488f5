//! The fields before an area's node images.

ghost use Rattle.std.specs.Prelude.{◌≡◌, ◌+◌, ◌*◌, ◌≤◌, ◌<◌, length, IfOk};
ghost use Rattle.tp_recover.specs.Lower.{AreTrue, WereTrue, area_start, areas_end, content_of, Counts, front_given};
ghost use Rattle.tp_recover.specs.Reading.{has_read, ReadAnswer, LeavesAlone, LeavesNothingNew, TakesNone};

use crate::reading::device::read_array;
use crate::unopened::Unopened;
use tp_area::{CutFront, FIELDS_BYTES, Head, area_start, cut_front, cut_length};
use tp_disk::Disk;
use tp_model::limits::NUMBER_LIMIT;

/// Reads the fields before an area's node images.
pub fn read_front<D: Disk>(disk: &mut D, head: &Head, second: bool) -> Result<CutFront, Unopened>
    requires { areas_end head.now.areas ≤ D.size_of disk.old }
    ensures takes_none { TakesNone result }
    ensures counts { Counts (has_read result) (D.size_of disk.old) (D.size_of disk.new) (D.failures_of disk.old) (D.failures_of disk.new) }
    ensures premise { WereTrue (D.reads disk.old) (D.reads disk.new) }
    ensures kept { LeavesAlone result (D.state disk.old).now (D.state disk.new).now }
    ensures leaves { LeavesNothingNew (D.state disk.old) (D.state disk.new) }
    ensures few { IfOk result (λ front. front.base < NUMBER_LIMIT) }
    ensures age { IfOk result (λ front. front.generation < NUMBER_LIMIT) }
    ensures is { AreTrue (D.reads disk.new) → ReadAnswer (λ front. front) (front_given head.now.topology (area_start head.now.areas second) (content_of head.now.areas second (D.state disk.old).now.bytes)) result }
{
    let wanted = cut_length(head.topology());
    let start = area_start(head.areas(), second);
    let bytes: [u8; FIELDS_BYTES] = read_array(disk, start + 1)?;
    match cut_front(&bytes, wanted, start) {
        Ok(front) => Ok(front),
        Err(fault) => Err(Unopened::Fault(fault)),
    }
}
