//! What was done with devices and files, as only contracts see it.

ghost use Rattle.std.specs.Prelude.{◌≡◌, List, [], ◌∷◌, ◌++◌};
ghost use Rattle.std.specs.Borrow.{ftrue};
ghost use Rattle.tp_program.specs.Devices.{DeviceCall, Holds, Makes, Opens, Closes, Reads, Looks, Begins, Leaves, Links, Requests};

use std::marker::Model;
use tp_disk::Disk;

/// A list of calls that takes no bytes. Contracts see it, and code can't read it.
#[derive(Drop)]
pub struct DeviceCalls {
    pub ghost told: { List DeviceCall },
}

impl Model for DeviceCalls {
    ghost also_owns = { λ _. ftrue };
}

impl DeviceCalls {
    /// Gives the ghost value `told`, for which a contract uses `_value`. It does nothing.
    pub(crate) fn of<T>(_value: &T) -> DeviceCalls
        ghost told: { List DeviceCall }
        ensures { result.told ≡ told }
    {
        DeviceCalls {}
    }

    /// Begins with no calls.
    pub(crate) fn new() -> DeviceCalls
        ensures { result.told ≡ [] }
    {
        DeviceCalls::of(&())
    }

    /// Notes that the device at a path was asked for, for `seconds` seconds while another process had it, and whether it was got.
    pub(crate) fn held(&self, path: &str, seconds: u32, ok: bool) -> DeviceCalls
        ensures { result.told ≡ self.now.told ++ Holds path.now seconds ok ∷ [] }
    {
        DeviceCalls::of(&(self, path, seconds, ok))
    }

    /// Notes that an empty file was to be made at a path and held, and whether that was done.
    pub(crate) fn made(&self, path: &str, ok: bool) -> DeviceCalls
        ensures { result.told ≡ self.now.told ++ Makes path.now ok ∷ [] }
    {
        DeviceCalls::of(&(self, path, ok))
    }

    /// Notes that the device at a path was opened.
    pub(crate) fn opened<D: Disk>(&self, path: &str, device: &D) -> DeviceCalls
        ensures { result.told ≡ self.now.told ++ Opens path.now (D.state device.now) ∷ [] }
    {
        DeviceCalls::of(&(self, path, device))
    }

    /// Notes that a device was given back.
    pub(crate) fn closed<D: Disk>(&self, device: &D) -> DeviceCalls
        ensures { result.told ≡ self.now.told ++ Closes (D.state device.now) (D.reads device.now) ∷ [] }
    {
        DeviceCalls::of(&(self, device))
    }

    /// Notes that a file was read whole.
    pub(crate) fn read(&self, path: &str, bytes: &[u8]) -> DeviceCalls
        ensures { result.told ≡ self.now.told ++ Reads path.now bytes.now ∷ [] }
    {
        DeviceCalls::of(&(self, path, bytes))
    }

    /// Notes that the device at a path was opened to be only read.
    pub(crate) fn looked<D: Disk>(&self, path: &str, device: &D) -> DeviceCalls
        ensures { result.told ≡ self.now.told ++ Looks path.now (D.state device.now) ∷ [] }
    {
        DeviceCalls::of(&(self, path, device))
    }

    /// Notes that a device was begun in the file at a path.
    pub(crate) fn begun<D: Disk>(&self, path: &str, device: &D) -> DeviceCalls
        ensures { result.told ≡ self.now.told ++ Begins path.now (D.state device.now) ∷ [] }
    {
        DeviceCalls::of(&(self, path, device))
    }

    /// Notes that such a device was given back.
    pub(crate) fn left<D: Disk>(&self, device: &D) -> DeviceCalls
        ensures { result.told ≡ self.now.told ++ Leaves (D.state device.now) (D.reads device.now) ∷ [] }
    {
        DeviceCalls::of(&(self, device))
    }

    /// Notes that a copy that was made at `part` got its name.
    pub(crate) fn named(&self, part: &str, copy: &str) -> DeviceCalls
        ensures { result.told ≡ self.now.told ++ Links part.now copy.now ∷ [] }
    {
        DeviceCalls::of(&(self, part, copy))
    }

    /// Notes that a request to stop was to be made at a path, and whether that was done.
    pub(crate) fn requested(&self, path: &str, ok: bool) -> DeviceCalls
        ensures { result.told ≡ self.now.told ++ Requests path.now ok ∷ [] }
    {
        DeviceCalls::of(&(self, path, ok))
    }
}
