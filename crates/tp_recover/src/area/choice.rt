//! Which area opening chooses.

ghost use Rattle.std.specs.Prelude.{◌≡◌, ◌+◌, ◌*◌, ◌^◌, ◌<◌, ◌≤◌, length};
ghost use Rattle.tp_recover.specs.Lower.{AreTrue, WereTrue, Counts, areas_end, choice, chosen_area, area_front};
ghost use Rattle.tp_recover.specs.Reading.{has_read, found, ReadAnswer, LeavesAlone, LeavesNothingNew, TakesNone};

use crate::reading::device::read_array;
use crate::unopened::Unopened;
use tp_area::{AREA_FRONT_BYTES, AreaFront, area_front, area_start};
use tp_disk::Disk;
use tp_model::{OpenFault, TwoAreas};

/// Reads the front of the area that begins at `start`.
fn read_area_front<D: Disk>(disk: &mut D, start: u64) -> Result<AreaFront, Unopened>
    requires { start + 9 ≤ D.size_of disk.old }
    ensures takes_none { TakesNone result }
    ensures counts { Counts (has_read result) (D.size_of disk.old) (D.size_of disk.new) (D.failures_of disk.old) (D.failures_of disk.new) }
    ensures premise { WereTrue (D.reads disk.old) (D.reads disk.new) }
    ensures kept { LeavesAlone result (D.state disk.old).now (D.state disk.new).now }
    ensures leaves { LeavesNothingNew (D.state disk.old) (D.state disk.new) }
    ensures is { AreTrue (D.reads disk.new) → ReadAnswer (λ front. front) (found (area_front start (D.state disk.old).now.bytes)) result }
{
    let bytes: [u8; AREA_FRONT_BYTES] = read_array(disk, start)?;
    Ok(area_front(&bytes))
}

/// Chooses an area by the fronts of both. Answers whether it is the second one, which begins at `at`.
fn choose(at: u64, first: AreaFront, second: AreaFront) -> Result<bool, OpenFault>
    ensures { result ≡ choice at first.is_open second.is_open first.generation second.generation }
{
    match (first.is_open, second.is_open) {
        (true, true) if second.generation < first.generation => Ok(false),
        (true, true) if first.generation < second.generation => Ok(true),
        (true, true) => Err(OpenFault::Damaged(at)),
        (true, false) => Ok(false),
        (false, true) => Ok(true),
        (false, false) => Err(OpenFault::NoOpenArea),
    }
}

/// Reads which area of a device to open, and answers whether it is the second one. Its areas are `areas`.
pub fn read_choice<D: Disk>(disk: &mut D, areas: TwoAreas) -> Result<bool, Unopened>
    requires some { 9 ≤ areas.length }
    requires inside { areas_end areas ≤ D.size_of disk.old }
    requires counted { areas.first + areas.length < 2 ^ 64 }
    ensures takes_none { TakesNone result }
    ensures counts { Counts (has_read result) (D.size_of disk.old) (D.size_of disk.new) (D.failures_of disk.old) (D.failures_of disk.new) }
    ensures premise { WereTrue (D.reads disk.old) (D.reads disk.new) }
    ensures kept { LeavesAlone result (D.state disk.old).now (D.state disk.new).now }
    ensures leaves { LeavesNothingNew (D.state disk.old) (D.state disk.new) }
    ensures is { AreTrue (D.reads disk.new) → ReadAnswer (λ second. second) (chosen_area areas (D.state disk.old).now.bytes) result }
{
    let first = read_area_front(disk, area_start(areas, false))?;
    let start = area_start(areas, true);
    let second = read_area_front(disk, start)?;
    match choose(start, first, second) {
        Ok(second) => Ok(second),
        Err(fault) => Err(Unopened::Fault(fault)),
    }
}
