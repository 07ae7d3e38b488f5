//! Counting the failures of a device.

ghost use Rattle.std.specs.Prelude.{◌≡◌, true};

use crate::disk::{DeviceFailed, Disk};
use crate::failures::Failures;
use crate::raw::RawDisk;

/// A device that counts its failures, over one that doesn't.
#[derive(Drop)]
pub struct Counted<F: RawDisk> {
    pub(crate) raw: F,
    pub(crate) failed: Failures,
}

impl<F: RawDisk> Counted<F> {
    ghost use Rattle.tp_disk.specs.Failures.{failure_count};

    /// Makes a device without a failed call.
    pub fn new(raw: F) -> Counted<F>
        ensures raw { result.raw ≡ raw }
        ensures failures { failure_count result.failed ≡ 0 }
    {
        Counted {
            raw,
            failed: Failures::new(),
        }
    }

    /// Gives the device below the count.
    pub fn raw(&self) -> &F
        ensures { result.now ≡ self.now.raw }
    {
        &self.raw
    }

    /// Gives the device below the count back.
    pub fn into_raw(self) -> F
        ensures { result ≡ self.raw }
    {
        self.raw
    }
}

impl<F: RawDisk> Disk for Counted<F> {
    ghost use Rattle.tp_disk.specs.Failures.{failure_count};

    ghost size_of = { λ d. F.size_of d.raw };

    ghost failures_of = { λ d. failure_count d.failed };

    ghost state = { λ d. F.state d.raw };

    ghost reads = { λ d. F.reads d.raw };

    ghost writable = { true };

    fn size(&self) -> u64 {
        self.raw.size()
    }

    fn failures(&self) -> u64 {
        self.failed.get()
    }

    fn read(&mut self, at: u64, out: &mut [u8]) -> Result<(), DeviceFailed> {
        let done = self.raw.read(at, out);
        if done.is_err() {
            self.failed.add();
        }
        done
    }

    fn write_at(&mut self, at: u64, bytes: &[u8]) -> Result<(), DeviceFailed> {
        let done = self.raw.write_at(at, bytes);
        if done.is_err() {
            self.failed.add();
        }
        done
    }

    fn sync(&mut self) -> Result<(), DeviceFailed> {
        let done = self.raw.sync();
        if done.is_err() {
            self.failed.add();
        }
        done
    }

    ghost whole = { λ d. F.whole d.raw };
}
