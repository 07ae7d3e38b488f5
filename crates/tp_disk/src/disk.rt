//! What the store sees of a device.

ghost use Rattle.std.specs.Prelude.{◌≡◌, ℕ, ◌+◌, ◌-◌, ◌^◌, ◌≤◌, Bool, true, List, ◌++◌, min, length, is_ok, OnOk, OnErr};
ghost use Rattle.tp_disk.specs.Lower.{Write, Sync, Read, done, State, MomentPassed, Fails, Counts};
ghost use Rattle.tp_disk.specs.Reads.{Reading, answered};

use thiserror::Error;

/// A call of a device failed.
#[derive(Clone, Copy, Debug, PartialEq, Eq, Error)]
#[error("DeviceFailed")]
pub struct DeviceFailed;

/// A device of a fixed number of bytes.
///
/// Its calls lead from state to state, whose moments `tp_model` defines. What a read gives is said under a premise on this device alone,
/// `AreTrue` of its reads: each of them gave what the state held. Nothing else needs a premise.
pub trait Disk {
    /// How many bytes it has.
    ghost size_of: { Self → ℕ };

    /// How many of its calls have failed.
    ghost failures_of: { Self → ℕ };

    /// What its calls so far have led to.
    ghost state: { Self → State };

    /// Which of its reads so far were answered, each beside what the state held then. `AreTrue` of them is the premise on this device.
    ghost reads: { Self → List Reading };

    /// Whether devices of this type may be written. Code for any device doesn't know it, so it writes only by a right that its caller gave it:
    /// a function that never returns owes no `ensures`, and this is asked before each write.
    ghost writable: { Bool };

    /// Counts its bytes.
    fn size(&self) -> u64
        ensures { result ≡ size_of self.now };

    /// Counts the calls that have failed, up to the greatest number.
    fn failures(&self) -> u64
        ensures { result ≡ min (failures_of self.now) (2 ^ 64 - 1) };

    /// Fills `out` with the bytes from `at` on. After `DeviceFailed`, `out` may hold anything.
    fn read(&mut self, at: u64, out: &mut [u8]) -> Result<(), DeviceFailed>
        requires { at + length out.old ≤ size_of self.old }
        ensures counts { Counts (is_ok result) (size_of self.old) (size_of self.new) (failures_of self.old) (failures_of self.new) }
        ensures goes { MomentPassed (state self.old) (state self.new) }
        ensures noted { reads self.new ≡ reads self.old ++ answered (is_ok result) at out.new (state self.old).now.bytes }
        ensures after { OnOk result ((state self.new).now ≡ done Read (state self.old).now) }
        ensures failed { OnErr result (Fails Read (state self.old) (state self.new)) };

    /// Writes over the bytes from `at` on. Until a sync succeeds, a crash may leave any bytes in the range, also after `DeviceFailed`.
    fn write_at(&mut self, at: u64, bytes: &[u8]) -> Result<(), DeviceFailed>
        requires inside { at + length bytes.now ≤ size_of self.old }
        requires allowed { writable ≡ true }
        ensures counts { Counts (is_ok result) (size_of self.old) (size_of self.new) (failures_of self.old) (failures_of self.new) }
        ensures unread { reads self.new ≡ reads self.old }
        ensures goes { MomentPassed (state self.old) (state self.new) }
        ensures after { OnOk result ((state self.new).now ≡ done (Write at bytes.now) (state self.old).now) }
        ensures failed { OnErr result (Fails (Write at bytes.now) (state self.old) (state self.new)) };

    /// Syncs what was written: after it, a crash leaves what a read gives. After `DeviceFailed` it may not.
    fn sync(&mut self) -> Result<(), DeviceFailed>
        ensures counts { Counts (is_ok result) (size_of self.old) (size_of self.new) (failures_of self.old) (failures_of self.new) }
        ensures unread { reads self.new ≡ reads self.old }
        ensures goes { MomentPassed (state self.old) (state self.new) }
        ensures after { OnOk result ((state self.new).now ≡ done Sync (state self.old).now) }
        ensures failed { OnErr result (Fails Sync (state self.old) (state self.new)) };

    /// The device's size is the number of bytes that its model has.
    ghost whole: { (d : Self) → length (state d).now.bytes ≡ size_of d };
}

/// A device that is lent is a device.
impl<D: Disk> Disk for &mut D {
    ghost size_of = { λ d. D.size_of d.now };

    ghost failures_of = { λ d. D.failures_of d.now };

    ghost state = { λ d. D.state d.now };

    ghost reads = { λ d. D.reads d.now };

    ghost writable = { D.writable };

    fn size(&self) -> u64 {
        (**self).size()
    }

    fn failures(&self) -> u64 {
        (**self).failures()
    }

    fn read(&mut self, at: u64, out: &mut [u8]) -> Result<(), DeviceFailed> {
        (**self).read(at, out)
    }

    fn write_at(&mut self, at: u64, bytes: &[u8]) -> Result<(), DeviceFailed> {
        (**self).write_at(at, bytes)
    }

    fn sync(&mut self) -> Result<(), DeviceFailed> {
        (**self).sync()
    }

    ghost whole = { λ d. D.whole d.now };
}
