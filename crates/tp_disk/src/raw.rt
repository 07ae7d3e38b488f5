//! A device below the count of its failures.

ghost use Rattle.std.specs.Prelude.{◌≡◌, ℕ, ◌+◌, ◌≤◌, List, ◌++◌, length, is_ok, OnOk, OnErr};
ghost use Rattle.tp_disk.specs.Lower.{Write, Sync, Read, done, State, MomentPassed, Fails};
ghost use Rattle.tp_disk.specs.Reads.{Reading, answered};

use crate::disk::DeviceFailed;

/// A device that doesn't count its failures. `Counted` makes a `Disk` of it.
pub trait RawDisk {
    /// How many bytes it has.
    ghost size_of: { Self → ℕ };

    /// What its calls so far have led to.
    ghost state: { Self → State };

    /// Which of its reads so far were answered, each beside what the state held then. `AreTrue` of them is the premise on this device.
    ghost reads: { Self → List Reading };

    /// Counts its bytes.
    fn size(&self) -> u64
        ensures { result ≡ size_of self.now };

    /// Fills `out` with the bytes from `at` on. After `DeviceFailed`, `out` may hold anything.
    fn read(&mut self, at: u64, out: &mut [u8]) -> Result<(), DeviceFailed>
        requires { at + length out.old ≤ size_of self.old }
        ensures size { size_of self.new ≡ size_of self.old }
        ensures goes { MomentPassed (state self.old) (state self.new) }
        ensures noted { reads self.new ≡ reads self.old ++ answered (is_ok result) at out.new (state self.old).now.bytes }
        ensures after { OnOk result ((state self.new).now ≡ done Read (state self.old).now) }
        ensures failed { OnErr result (Fails Read (state self.old) (state self.new)) };

    /// Writes over the bytes from `at` on. Until a sync succeeds, a crash may leave any bytes in the range, also after `DeviceFailed`.
    fn write_at(&mut self, at: u64, bytes: &[u8]) -> Result<(), DeviceFailed>
        requires { at + length bytes.now ≤ size_of self.old }
        ensures size { size_of self.new ≡ size_of self.old }
        ensures unread { reads self.new ≡ reads self.old }
        ensures goes { MomentPassed (state self.old) (state self.new) }
        ensures after { OnOk result ((state self.new).now ≡ done (Write at bytes.now) (state self.old).now) }
        ensures failed { OnErr result (Fails (Write at bytes.now) (state self.old) (state self.new)) };

    /// Syncs what was written: after it, a crash leaves what a read gives. After `DeviceFailed` it may not.
    fn sync(&mut self) -> Result<(), DeviceFailed>
        ensures size { size_of self.new ≡ size_of self.old }
        ensures unread { reads self.new ≡ reads self.old }
        ensures goes { MomentPassed (state self.old) (state self.new) }
        ensures after { OnOk result ((state self.new).now ≡ done Sync (state self.old).now) }
        ensures failed { OnErr result (Fails Sync (state self.old) (state self.new)) };

    /// The device's size is the number of bytes that its model has.
    ghost whole: { (d : Self) → length (state d).now.bytes ≡ size_of d };
}
