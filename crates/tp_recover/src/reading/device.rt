//! Reading bytes of a device.

ghost use Rattle.std.specs.Prelude.{◌≡◌, ◌+◌, ◌≤◌, ◌<◌, ℕ, length, take, drop, get_or, IfOk};
ghost use Rattle.tp_recover.specs.Lower.{Counts, AreTrue, WereTrue};
ghost use Rattle.tp_recover.specs.Reading.{has_read, found, ReadAnswer, LeavesAlone, LeavesNothingNew, TakesNone};

use crate::unopened::Unopened;
use std::alloc::Global;
use tp_disk::Disk;

/// Reads bytes from `at` on, until `out` is full.
fn fill<D: Disk>(disk: &mut D, at: u64, out: &mut [u8]) -> Result<(), Unopened>
    requires { at + length out.old ≤ D.size_of disk.old }
    ensures takes_none { TakesNone result }
    ensures counts { Counts (has_read result) (D.size_of disk.old) (D.size_of disk.new) (D.failures_of disk.old) (D.failures_of disk.new) }
    ensures premise { WereTrue (D.reads disk.old) (D.reads disk.new) }
    ensures kept { LeavesAlone result (D.state disk.old).now (D.state disk.new).now }
    ensures leaves { LeavesNothingNew (D.state disk.old) (D.state disk.new) }
    ensures len { length out.new ≡ length out.old }
    ensures fit { (i : ℕ) → get_or out.new i 0 < 256 }
    ensures bytes { AreTrue (D.reads disk.new) → ReadAnswer (λ done. out.new) (found (take (length out.old) (drop at (D.state disk.old).now.bytes))) result }
{
    match disk.read(at, out) {
        Ok(()) => Ok(()),
        Err(_) => Err(Unopened::ReadFailed),
    }
}

/// Reads `N` bytes from a place on.
pub(crate) fn read_array<D: Disk, const N: usize>(
    disk: &mut D,
    at: u64,
) -> Result<[u8; N], Unopened>
    requires { at + N ≤ D.size_of disk.old }
    ensures takes_none { TakesNone result }
    ensures counts { Counts (has_read result) (D.size_of disk.old) (D.size_of disk.new) (D.failures_of disk.old) (D.failures_of disk.new) }
    ensures premise { WereTrue (D.reads disk.old) (D.reads disk.new) }
    ensures kept { LeavesAlone result (D.state disk.old).now (D.state disk.new).now }
    ensures leaves { LeavesNothingNew (D.state disk.old) (D.state disk.new) }
    ensures bytes { AreTrue (D.reads disk.new) → ReadAnswer (λ bytes. bytes) (found (take N (drop at (D.state disk.old).now.bytes))) result }
{
    let mut bytes = [0; N];
    fill(disk, at, &mut bytes)?;
    Ok(bytes)
}

/// Reads `count` bytes from `at` on.
pub(crate) fn read_bytes<D: Disk>(
    alloc: Global,
    disk: &mut D,
    at: u64,
    count: usize,
) -> Result<Vec<u8>, Unopened>
    requires { at + count ≤ D.size_of disk.old }
    ensures counts { Counts (has_read result) (D.size_of disk.old) (D.size_of disk.new) (D.failures_of disk.old) (D.failures_of disk.new) }
    ensures premise { WereTrue (D.reads disk.old) (D.reads disk.new) }
    ensures kept { LeavesAlone result (D.state disk.old).now (D.state disk.new).now }
    ensures leaves { LeavesNothingNew (D.state disk.old) (D.state disk.new) }
    ensures len { IfOk result (λ bytes. length bytes.items ≡ count) }
    ensures fit { IfOk result (λ bytes. (i : ℕ) → get_or bytes.items i 0 < 256) }
    ensures bytes { AreTrue (D.reads disk.new) → ReadAnswer (λ bytes. bytes.items) (found (take count (drop at (D.state disk.old).now.bytes))) result }
{
    let mut bytes = Vec::new(alloc);
    if bytes.resize(count, 0).is_err() {
        return Err(Unopened::Memory);
    }
    fill(disk, at, &mut bytes)?;
    Ok(bytes)
}
