//! What devices hold that no call tells, as only contracts see it.

ghost use Rattle.std.specs.Prelude.{◌≡◌, List, [], IfOk};
ghost use Rattle.tp_program.specs.Lower.{ftrue, begins, Medium};
ghost use Rattle.tp_program.specs.Media.{medium_at};

use crate::device_calls::DeviceCalls;
use std::io;
use std::marker::Model;
use tp_disk::{Counted, Disk, RawFile, SystemFile};

/// What each device holds that is opened, and what a write of it that fails leaves. It takes no bytes. Contracts see it, and code can't read it.
#[derive(Drop)]
pub struct Media {
    pub ghost told: { List Medium },
}

impl Model for Media {
    ghost also_owns = { λ _. ftrue };
}

impl Media {
    /// Gives the ghost value `told`, for which a contract uses `_value`. It does nothing.
    pub(crate) fn of<T>(_value: &T) -> Media
        ghost told: { List Medium }
        ensures { result.told ≡ told }
    {
        Media {}
    }

    /// Makes the device in a file that was opened after these calls. It holds what was told of the device that comes next. Fails as the system does.
    pub(crate) fn device_in<F: SystemFile + Drop>(
        &self,
        file: F,
        noted: &DeviceCalls,
        used: &DeviceCalls,
    ) -> io::Result<Counted<RawFile<F>>>
        ensures state { IfOk result (λ device. ⟦<Counted<RawFile<F>> as Disk>⟧.state device ≡ begins (medium_at self.now.told noted.now.told used.now.told) (⟦<Counted<RawFile<F>> as Disk>⟧.size_of device)) }
        ensures reads { IfOk result (λ device. ⟦<Counted<RawFile<F>> as Disk>⟧.reads device ≡ []) }
    {
        device_of(file, self, noted, used)
    }
}

/// Makes the device in an open file. What it holds is the ghost value `medium`, for which a contract uses what else is passed. Fails as the system does.
fn device_of<F: SystemFile + Drop>(
    file: F,
    _media: &Media,
    _noted: &DeviceCalls,
    _used: &DeviceCalls,
) -> io::Result<Counted<RawFile<F>>>
    ghost medium: { Medium }
    ensures state { IfOk result (λ device. ⟦<Counted<RawFile<F>> as Disk>⟧.state device ≡ begins medium (⟦<Counted<RawFile<F>> as Disk>⟧.size_of device)) }
    ensures reads { IfOk result (λ device. ⟦<Counted<RawFile<F>> as Disk>⟧.reads device ≡ []) }
{
    Ok(Counted::new(RawFile::new(file)?))
}
