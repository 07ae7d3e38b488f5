//! The store over a device that opened.

ghost use Rattle.std.specs.Prelude.{◌≡◌, ◌+◌, ◌*◌, ◌^◌, ◌<◌, ◌≤◌, true, false, Ok, Err, IfOk};
ghost use Rattle.tp_recover.specs.Lower.{AreTrue, WereTrue, place_at, area_start, areas_end, Sync, done, Counts, verdict, AREA_HEAD_BYTES};
ghost use Rattle.tp_recover.specs.Reading.{ReadAnswer, LeavesNothingNew};
ghost use Rattle.tp_recover.specs.declared.unopened.Unopened.TheVariants.{ReadFailed};

use crate::opening::{Opened, open};
use crate::unopened::Unopened;
use std::alloc::Global;
use tp_area::{Place, Store, open_devices_say_their_place};
use tp_disk::Disk;

impl Opened {
    /// Tells where the next group goes: inside the open area, after its head.
    pub fn place(&self) -> Place
        ensures value { result ≡ place_at self.now }
        ensures behind { area_start result.areas result.second + AREA_HEAD_BYTES ≤ result.end }
        ensures inside { result.end < area_start result.areas result.second + result.areas.length }
    {
        Place {
            areas: self.head().areas(),
            second: self.second(),
            generation: self.generation(),
            form: self.form(),
            end: self.end(),
            next: self.next(),
        }
    }

    /// Makes the store over the device from which this was read.
    pub fn store<D: Disk>(&self, disk: D) -> Store<D>
        requires whole { areas_end self.now.head.areas ≤ D.size_of disk }
        requires counted { D.size_of disk < 2 ^ 64 }
        requires read { AreTrue (D.reads disk) → verdict (D.state disk).now.bytes ≡ Ok self.now }
        ensures disk { result.disk ≡ disk }
        ensures place { result.place ≡ place_at self.now }
        ensures unbroken { result.broken ≡ false }
    {
        open_devices_say_their_place();
        Store::new(disk, self.place())
    }
}

/// Opens a device, as `open` does, and gives the store over it. Fails as `open` does.
///
/// If it fails, the device is gone, and the contract says only that a call of it failed if that is the answer. To get it back, lend it,
/// since `&mut disk` is a device, too, or call `open` and then `Opened::store`.
pub fn open_store<D: Disk + Drop>(
    alloc: Global,
    mut disk: D,
) -> Result<(Opened, Store<D>), Unopened>
    ensures counts { IfOk result (λ both. Counts true (D.size_of disk) (D.size_of both.1.disk) (D.failures_of disk) (D.failures_of both.1.disk)) }
    ensures failed { result ≡ Err ReadFailed → (after : D) × Counts false (D.size_of disk) (D.size_of after) (D.failures_of disk) (D.failures_of after) }
    ensures premise { IfOk result (λ both. WereTrue (D.reads disk) (D.reads both.1.disk)) }
    ensures kept { IfOk result (λ both. (D.state both.1.disk).now ≡ done Sync (D.state disk).now) }
    ensures leaves { IfOk result (λ both. LeavesNothingNew (D.state disk) (D.state both.1.disk)) }
    ensures is { (after : D) × IfOk result (λ both. both.1.disk ≡ after) × (AreTrue (D.reads after) → ReadAnswer (λ both. both.0) (verdict (D.state disk).now.bytes) result) }
    ensures place { IfOk result (λ both. both.1.place ≡ place_at both.0) }
    ensures unbroken { IfOk result (λ both. both.1.broken ≡ false) }
{
    let opened = open(alloc, &mut disk)?;
    let store = opened.store(disk);
    Ok((opened, store))
}
