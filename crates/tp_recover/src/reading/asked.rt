//! What a device answered about an area, and when it was asked.

ghost use Rattle.std.specs.Prelude.{◌≡◌, ◌+◌, ◌≤◌, ◌↔◌, true, IfOk, IsTrue};
ghost use Rattle.tp_recover.specs.Lower.{ftrue, AreTrue, State, WereTrue, area_front, AREA_FRONT_BYTES};
ghost use Rattle.tp_recover.specs.Reading.{LeavesNothingNew};

use crate::copy::fault::CopyFault;
use std::marker::Model;
use tp_area::{AREA_FRONT_BYTES, AreaFront, area_front};
use tp_disk::Disk;

/// The state of a device, which only contracts see. It has no bytes.
#[derive(Drop)]
struct Noted {
    pub ghost state: { State },
}

impl Model for Noted {
    ghost also_owns = { λ _. ftrue };
}

impl Noted {
    /// Gives the ghost value `state`, which a contract names by what is lent as `_value`. It does nothing.
    fn of<T>(_value: &T) -> Noted
        ghost state: { State }
        ensures { result.state ≡ state }
    {
        Noted {}
    }

    /// Notes the state of a device.
    fn of_device<D: Disk>(device: &D) -> Noted
        ensures { result.state ≡ D.state device.now }
    {
        Noted::of(device)
    }
}

/// What a device answered when it was asked for the gate and the generation of the area that begins at `start`. Only `ask_area` makes it. Contracts
/// see the device's state right after the question (`noted`), and so which calls came before.
#[derive(Drop)]
pub struct AreaAsked {
    start: u64,
    front: AreaFront,
    noted: Noted,
}

impl AreaAsked {
    /// Whether the gate was open, with this generation.
    pub(crate) fn is_open_with(&self, generation: u64) -> bool
        ensures { IsTrue result ↔ self.now.front ≡ record { is_open = true; generation = generation } }
    {
        self.front.is_open && self.front.generation == generation
    }
}

/// Asks a device for the gate and the generation of the area that begins at `start`. It does so by one call.
pub(crate) fn ask_area<D: Disk>(source: &mut D, start: u64) -> Result<AreaAsked, CopyFault>
    requires { start + AREA_FRONT_BYTES ≤ D.size_of source.old }
    ensures source_size { D.size_of source.new ≡ D.size_of source.old }
    ensures premise { WereTrue (D.reads source.old) (D.reads source.new) }
    ensures kept { IfOk result (λ asked. (D.state source.new).now ≡ (D.state source.old).now) }
    ensures leaves { LeavesNothingNew (D.state source.old) (D.state source.new) }
    ensures is { AreTrue (D.reads source.new) → IfOk result (λ asked. asked.front ≡ area_front start (D.state source.old).now.bytes) }
    ensures start { IfOk result (λ asked. asked.start ≡ start) }
    ensures last { IfOk result (λ asked. asked.noted.state ≡ D.state source.new) }
{
    let mut bytes = [0; AREA_FRONT_BYTES];
    match source.read(start, &mut bytes) {
        Ok(()) => {
            let front = area_front(&bytes);
            let noted = Noted::of_device(&*source);
            Ok(AreaAsked {
                start,
                front,
                noted,
            })
        }
        Err(_) => Err(CopyFault::ReadFailed),
    }
}
