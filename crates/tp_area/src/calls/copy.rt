//! Writing the copy of a device.

ghost use Rattle.std.specs.Prelude.{◌≡◌, ◌+◌, ◌≤◌, true, length, is_ok, OnOk};
ghost use Rattle.tp_area.specs.Lower.{Write, Counts, done};
ghost use Rattle.tp_area.specs.Rights.{Copies};

use crate::rights::may_copy;
use tp_disk::{DeviceFailed, Disk};

/// Writes over the bytes of a copy, from `at` on. They aren't synced.
pub fn put_copied<D: Disk>(copy: &mut D, at: u64, bytes: &[u8]) -> Result<(), DeviceFailed>
    requires inside { at + length bytes.now ≤ D.size_of copy.old }
    requires allowed { Copies → D.writable ≡ true }
    ensures counts { Counts (is_ok result) (D.size_of copy.old) (D.size_of copy.new) (D.failures_of copy.old) (D.failures_of copy.new) }
    ensures after { OnOk result ((D.state copy.new).now ≡ done (Write at bytes.now) (D.state copy.old).now) }
{
    may_copy::<D>();
    copy.write_at(at, bytes)
}
