//! Locks of devices' files.

ghost use Rattle.std.specs.Prelude.{◌≡◌, IfErr, IfOk};
ghost use Rattle.tp_program.specs.Devices.{path_held};
ghost use Rattle.tp_program.specs.Tries.{WasTriedOnce, WasWaitedFor};

use crate::device_calls::DeviceCalls;
use crate::trying::InUse;

/// The lock of a device's file, for as long as this value lives, and the path at which it was taken.
#[derive(Drop)]
pub struct Held<K: Drop> {
    pub(crate) lock: K,
    noted: DeviceCalls,
}

impl<K: Drop> Held<K> {
    /// Notes that a lock was taken at this path.
    pub fn new(path: &str, lock: K) -> Held<K>
        ensures { path_held result.noted.told ≡ path.now }
    {
        Held {
            lock,
            noted: DeviceCalls::new().held(path, 0, true),
        }
    }
}

/// Takes the locks of devices' files, which are `F`s.
pub trait Locks<F: Drop> {
    type Lock: Drop;

    /// Takes the lock of the device's file at a path. While another process has it, it tries again for `seconds` seconds; then it fails.
    fn take(&mut self, path: &str, seconds: u32) -> Result<Held<Self::Lock>, InUse>
        ensures got { IfOk result (λ held. path_held held.noted.told ≡ path.now) }
        ensures vain { IfErr result (WasWaitedFor seconds) };

    /// Takes the lock of this file, which was just made at a path. It tries once, and fails if another process has taken the lock first.
    fn take_made(&mut self, path: &str, file: F) -> Result<Held<Self::Lock>, InUse>
        ensures got { IfOk result (λ held. path_held held.noted.told ≡ path.now) }
        ensures vain { IfErr result WasTriedOnce };

    /// Whether the path still has what it had when this lock was taken: the very file that is locked, or nothing.
    fn is_kept(&self, lock: &Self::Lock, path: &str) -> bool;
}
