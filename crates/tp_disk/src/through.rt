//! Writing through to the device.

ghost use Rattle.std.specs.Prelude.{◌≡◌, ◌+◌, ◌≤◌, [], ◌∷◌, true, length, is_ok, OnOk, OnErr};
ghost use Rattle.tp_disk.specs.Lower.{MayBe, Write, Sync, within, Counts, LeavesOnly, Called, Broke};

use crate::disk::{DeviceFailed, Disk};

/// Writes, and syncs all that was written. `DeviceFailed` if either call does.
///
/// A crash at any moment of it leaves what one within the write may leave. If all was synced before, only bytes in the write's range can
/// differ.
pub fn write_through<D: Disk>(disk: &mut D, at: u64, bytes: &[u8]) -> Result<(), DeviceFailed>
    requires inside { at + length bytes.now ≤ D.size_of disk.old }
    requires allowed { D.writable ≡ true }
    ensures counts { Counts (is_ok result) (D.size_of disk.old) (D.size_of disk.new) (D.failures_of disk.old) (D.failures_of disk.new) }
    ensures unread { D.reads disk.new ≡ D.reads disk.old }
    ensures called { OnOk result (Called (Write at bytes.now ∷ Sync ∷ []) (D.state disk.old) (D.state disk.new)) }
    ensures broke { OnErr result (Broke (Write at bytes.now ∷ Sync ∷ []) (D.state disk.old) (D.state disk.new)) }
    ensures any_moment { LeavesOnly (D.state disk.old) (D.state disk.new) (MayBe (within (Write at bytes.now) (D.state disk.old).now)) }
{
    disk.write_at(at, bytes)?;
    disk.sync()
}
