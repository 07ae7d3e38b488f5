//! Opening a device that another process may be running, and giving a node as it was before an entry.

ghost use Rattle.std.specs.Prelude.{IfOk};
ghost use Rattle.tp_views.specs.Lower.{AreTrue, WereTrue, Counts, verdict, IsImageOf, node_before, ReadAnswer, LeavesNothingNew};
ghost use Rattle.tp_views.specs.Opens.{IsUnwritten};
ghost use Rattle.tp_views.specs.Steady.{IfSteady, OfSteady, has_tried};

use crate::steady::{MAX_TRIES, Tried, is_still, look};
use std::alloc::Global;
use tp_disk::Disk;
use tp_recover::{Unopened, open_before};

/// Opens a device between two looks, as `open_once` does.
fn open_once_before<D: Disk>(
    alloc: Global,
    disk: &mut D,
    node: u64,
    from: u64,
    image: &mut Option<Vec<u8>>,
) -> Tried
    ensures counts { Counts (has_tried result) (D.size_of disk.old) (D.size_of disk.new) (D.failures_of disk.old) (D.failures_of disk.new) }
    ensures premise { WereTrue (D.reads disk.old) (D.reads disk.new) }
    ensures kept { IsUnwritten (D.failures_of disk.old) (D.failures_of disk.new) (D.state disk.old).now (D.state disk.new).now }
    ensures leaves { LeavesNothingNew (D.state disk.old) (D.state disk.new) }
    ensures is { AreTrue (D.reads disk.new) → OfSteady (ReadAnswer (λ opened. opened) (verdict (D.state disk.old).now.bytes)) result }
    ensures image { IfSteady (λ answer. IfOk answer (λ opened. IsImageOf (node_before node from opened) image.new)) result }
{
    let Ok(before) = look(disk) else {
        return Tried::Steady(Err(Unopened::ReadFailed));
    };
    let answer = match open_before(alloc, disk, node, from, image) {
        Err(Unopened::ReadFailed) => return Tried::Steady(Err(Unopened::ReadFailed)),
        answer => answer,
    };
    match look(disk) {
        Ok(after) if is_still(before, after) => Tried::Steady(answer),
        Ok(_) => Tried::Changed,
        Err(_) => Tried::Steady(Err(Unopened::ReadFailed)),
    }
}

/// Opens a device, as `open_steady` does. Puts into `image` the image of a node as it was before the device's first entry whose number is `from` or
/// more; `None` if there is no such node.
pub fn open_steady_before<D: Disk>(
    alloc: Global,
    disk: &mut D,
    node: u64,
    from: u64,
    image: &mut Option<Vec<u8>>,
) -> Tried
    ensures counts { Counts (has_tried result) (D.size_of disk.old) (D.size_of disk.new) (D.failures_of disk.old) (D.failures_of disk.new) }
    ensures premise { WereTrue (D.reads disk.old) (D.reads disk.new) }
    ensures kept { IsUnwritten (D.failures_of disk.old) (D.failures_of disk.new) (D.state disk.old).now (D.state disk.new).now }
    ensures leaves { LeavesNothingNew (D.state disk.old) (D.state disk.new) }
    ensures is { AreTrue (D.reads disk.new) → OfSteady (ReadAnswer (λ opened. opened) (verdict (D.state disk.old).now.bytes)) result }
    ensures image { IfSteady (λ answer. IfOk answer (λ opened. IsImageOf (node_before node from opened) image.new)) result }
{
    let mut left = MAX_TRIES;
    while left > 0 {
        left -= 1;
        if let Tried::Steady(answer) = open_once_before(alloc, disk, node, from, image) {
            return Tried::Steady(answer);
        }
    }
    Tried::Changed
}
