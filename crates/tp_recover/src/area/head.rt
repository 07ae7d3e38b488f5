//! The head of a device.

ghost use Rattle.std.specs.Prelude.{◌≡◌, ◌+◌, ◌*◌, ◌≤◌, ◌<◌, ◌^◌, length, take, true, Ok, IfOk};
ghost use Rattle.tp_recover.specs.Lower.{AreTrue, WereTrue, head_in, version_in, areas_end, head_length, head_of, Counts, Wide};
ghost use Rattle.tp_recover.specs.Reading.{has_read, ReadAnswer, LeavesAlone, LeavesNothingNew, TakesNone};

use crate::reading::device::read_array;
use crate::unopened::Unopened;
use tp_area::{Head, head_in, head_version};
use tp_disk::Disk;
use tp_model::limits::{NARROW_HEAD_BYTES, WIDE_HEAD_BYTES};
use tp_model::{HeadVersion, OpenFault};

/// Decodes a head of version `version` of a device of `len` bytes.
fn decoded(version: HeadVersion, bytes: &[u8], len: u64) -> Result<Head, Unopened>
    requires { length bytes.now ≡ head_length version }
    ensures takes_none { TakesNone result }
    ensures read { has_read result ≡ true }
    ensures inside { IfOk result (λ head. areas_end head.areas ≤ len) }
    ensures is { ReadAnswer (λ head. head) (head_in version len bytes.now) result }
{
    match head_in(version, bytes, len) {
        Ok(head) => Ok(head),
        Err(fault) => Err(Unopened::Fault(fault)),
    }
}

/// Reads the head of a device of `len` bytes, whose first bytes say that it is a wide one.
fn read_wide<D: Disk>(disk: &mut D, len: u64) -> Result<Head, Unopened>
    requires size { D.size_of disk.old ≡ len }
    requires some { NARROW_HEAD_BYTES ≤ len }
    ensures takes_none { TakesNone result }
    ensures counts { Counts (has_read result) (D.size_of disk.old) (D.size_of disk.new) (D.failures_of disk.old) (D.failures_of disk.new) }
    ensures premise { WereTrue (D.reads disk.old) (D.reads disk.new) }
    ensures kept { LeavesAlone result (D.state disk.old).now (D.state disk.new).now }
    ensures leaves { LeavesNothingNew (D.state disk.old) (D.state disk.new) }
    ensures inside { IfOk result (λ head. areas_end head.areas ≤ len) }
    ensures is { AreTrue (D.reads disk.new) → version_in (take NARROW_HEAD_BYTES (D.state disk.old).now.bytes) ≡ Ok Wide → ReadAnswer (λ head. head) (head_of (D.state disk.old).now.bytes) result }
{
    if len < WIDE_HEAD_BYTES as u64 {
        return Err(Unopened::Fault(OpenFault::Damaged(0)));
    }
    let bytes: [u8; WIDE_HEAD_BYTES] = read_array(disk, 0)?;
    decoded(HeadVersion::Wide, &bytes, len)
}

/// Reads the head of a device: the bytes of a narrow one, and if these say that it is a wide one, all bytes of that.
#[inline(never)]
pub fn read_head<D: Disk>(disk: &mut D) -> Result<Head, Unopened>
    ensures takes_none { TakesNone result }
    ensures counts { Counts (has_read result) (D.size_of disk.old) (D.size_of disk.new) (D.failures_of disk.old) (D.failures_of disk.new) }
    ensures premise { WereTrue (D.reads disk.old) (D.reads disk.new) }
    ensures kept { LeavesAlone result (D.state disk.old).now (D.state disk.new).now }
    ensures leaves { LeavesNothingNew (D.state disk.old) (D.state disk.new) }
    ensures inside { IfOk result (λ head. areas_end head.areas ≤ D.size_of disk.old) }
    ensures counted { IfOk result (λ head. D.size_of disk.old < 2 ^ 64) }
    ensures is { AreTrue (D.reads disk.new) → ReadAnswer (λ head. head) (head_of (D.state disk.old).now.bytes) result }
{
    let len = disk.size();
    if len < NARROW_HEAD_BYTES as u64 {
        return Err(Unopened::Fault(OpenFault::NotFormatted));
    }
    let bytes: [u8; NARROW_HEAD_BYTES] = read_array(disk, 0)?;
    match head_version(&bytes) {
        Ok(HeadVersion::Narrow) => decoded(HeadVersion::Narrow, &bytes, len),
        Ok(HeadVersion::Wide) => read_wide(disk, len),
        Err(fault) => Err(Unopened::Fault(fault)),
    }
}
