//! Opening a device that another process may be running. A *look* reads the fronts of both areas. `open_steady` looks, opens the device, and looks
//! again.
//!
//! Another process that runs the device writes only the area that doesn't count. A checkpoint closes that area's gate, and writes all after it, with
//! a generation that is one more than the other area's. Then it opens the gate: from then on that area counts. Only the next checkpoint writes the
//! other area anew: it closes its gate first, and opens it with a generation that is higher by 2. So if an area's gate is open at two moments with
//! one generation, only groups after its last one were written between them.
//!
//! **An area counts at the look before.** Suppose the look after finds its gate and its generation unchanged. Then no checkpoint wrote into it
//! between the two looks, so none opened the other area and then wrote into that one either. Whichever area opening read, nobody wrote it anew: it is
//! what it was since the look before, or since a checkpoint opened it, until the look after. Groups may be appended meanwhile, but their gate is
//! opened last, after all that follows it, with the next gate closed, was written and synced. So what was read up to the first closed gate is whole,
//! and is what was there at the moment of the last read. The answer is one of that moment, and a refusal is true of it.
//!
//! **No area counts at the look before.** While a device is run, one area's gate is open at each moment, and the two generations are never equal. A
//! look that reads one front after the other may miss that, if a switch comes between its reads. So a look reads the first area's front once more at
//! its end. What opening said is true if the look after finds these three fronts again, since a running device can't show them twice:
//! - If the first front is closed each time, it was closed at three moments at least, and the second front was closed at moments between them. But
//!   before one generation a gate is closed in at most two spans of time: while that generation is written, and before it is written anew.
//! - If the first front is open when it is read once more, it was opened after its first reading. So it can't be closed again before that generation,
//!   and opened again with it.
//!
//! **No look finds a head.** Then the device isn't formatted, or its head breaks a rule. No run writes a head, and `format` writes it last. So what
//! opening said is true if the look after finds no head either.
//!
//! A read of an area's front is taken to be of one moment: of its nine bytes, the gate is closed and synced before the others are written. One thing
//! isn't noticed: a file that is formatted anew while it is read, if the new device's front has the bytes of the old one's.

ghost use Rattle.std.specs.Prelude.{◌≡◌, ◌+◌, ◌≤◌, ◌<◌, ◌^◌, ◌↔◌, IsTrue, IfErr, IfOk};
ghost use Rattle.tp_views.specs.Lower.{AreTrue, WereTrue, area_front, areas_end, Counts, head_of, verdict, has_read, found, ReadAnswer, LeavesAlone, LeavesNothingNew};
ghost use Rattle.tp_views.specs.Opens.{IsUnwritten};
ghost use Rattle.tp_views.specs.Steady.{StayedOpen, CountsStill, OfSteady, counting, front_seen, fronts_in, has_tried, is_above, look_finds};

use std::alloc::Global;
use tp_area::{AREA_FRONT_BYTES, AreaFront, area_front, area_start};
use tp_disk::Disk;
use tp_model::TwoAreas;
use tp_recover::{Opened, Unopened, open, read_head};

/// How many times a device is opened that another process writes meanwhile.
pub const MAX_TRIES: u32 = 20;

/// What a look finds: the places of the areas, and their fronts in the order of reading: the first area's, the second one's, and the first one's
/// again.
#[derive(Clone, Copy, PartialEq, Eq)]
pub(crate) struct Fronts {
    areas: TwoAreas,
    first: AreaFront,
    second: AreaFront,
    again: AreaFront,
}

/// Whether the first of two areas counts: its gate is open, and the other one's is closed, or has a lower generation.
fn is_above(one: AreaFront, other: AreaFront) -> bool
    ensures { result ≡ is_above one other }
{
    one.is_open && (!other.is_open || other.generation < one.generation)
}

impl Fronts {
    /// Which area counts: whether it is the second one. It is `None` if no gate is open, or both are open with one generation.
    fn counting(&self) -> Option<bool>
        ensures { result ≡ counting self.now }
    {
        if is_above(self.first, self.second) {
            Some(false)
        } else if is_above(self.second, self.first) {
            Some(true)
        } else {
            None
        }
    }

    /// Gives the front of an area.
    fn front(&self, second: bool) -> AreaFront
        ensures { result ≡ front_seen second self.now }
    {
        if second { self.second } else { self.first }
    }
}

/// Reads the front of the area that begins at `start`.
fn read_front<D: Disk>(disk: &mut D, start: u64) -> Result<AreaFront, Unopened>
    requires { start + 9 ≤ D.size_of disk.old }
    ensures counts { Counts (has_read result) (D.size_of disk.old) (D.size_of disk.new) (D.failures_of disk.old) (D.failures_of disk.new) }
    ensures premise { WereTrue (D.reads disk.old) (D.reads disk.new) }
    ensures kept { LeavesAlone result (D.state disk.old).now (D.state disk.new).now }
    ensures leaves { LeavesNothingNew (D.state disk.old) (D.state disk.new) }
    ensures refused { IfErr result (λ unopened. unopened ≡ Unopened.ReadFailed) }
    ensures is { AreTrue (D.reads disk.new) → IfOk result (λ front. front ≡ area_front start (D.state disk.old).now.bytes) }
{
    let mut bytes = [0; AREA_FRONT_BYTES];
    match disk.read(start, &mut bytes) {
        Ok(()) => Ok(area_front(&bytes)),
        Err(_) => Err(Unopened::ReadFailed),
    }
}

/// Reads the fronts of a device's areas.
fn read_fronts<D: Disk>(disk: &mut D, areas: TwoAreas) -> Result<Fronts, Unopened>
    requires some { 9 ≤ areas.length }
    requires inside { areas_end areas ≤ D.size_of disk.old }
    requires counted { areas_end areas < 2 ^ 64 }
    ensures counts { Counts (has_read result) (D.size_of disk.old) (D.size_of disk.new) (D.failures_of disk.old) (D.failures_of disk.new) }
    ensures premise { WereTrue (D.reads disk.old) (D.reads disk.new) }
    ensures kept { LeavesAlone result (D.state disk.old).now (D.state disk.new).now }
    ensures leaves { LeavesNothingNew (D.state disk.old) (D.state disk.new) }
    ensures refused { IfErr result (λ unopened. unopened ≡ Unopened.ReadFailed) }
    ensures is { AreTrue (D.reads disk.new) → IfOk result (λ fronts. fronts ≡ fronts_in areas (D.state disk.old).now.bytes) }
{
    let start = area_start(areas, false);
    let Ok(first) = read_front(disk, start) else {
        return Err(Unopened::ReadFailed);
    };
    let Ok(second) = read_front(disk, area_start(areas, true)) else {
        return Err(Unopened::ReadFailed);
    };
    let Ok(again) = read_front(disk, start) else {
        return Err(Unopened::ReadFailed);
    };
    Ok(Fronts {
        areas,
        first,
        second,
        again,
    })
}

/// Looks at a device: gives the fronts of its areas; `None` if it has no head, or one that breaks a rule.
pub(crate) fn look<D: Disk>(disk: &mut D) -> Result<Option<Fronts>, Unopened>
    ensures counts { Counts (has_read result) (D.size_of disk.old) (D.size_of disk.new) (D.failures_of disk.old) (D.failures_of disk.new) }
    ensures premise { WereTrue (D.reads disk.old) (D.reads disk.new) }
    ensures kept { LeavesAlone result (D.state disk.old).now (D.state disk.new).now }
    ensures leaves { LeavesNothingNew (D.state disk.old) (D.state disk.new) }
    ensures refused { IfErr result (λ unopened. unopened ≡ Unopened.ReadFailed) }
    ensures is { AreTrue (D.reads disk.new) → IfOk result (λ found. found ≡ look_finds (head_of (D.state disk.old).now.bytes) (D.state disk.old).now.bytes) }
{
    match read_head(disk) {
        Ok(head) => match read_fronts(disk, head.areas()) {
            Ok(fronts) => Ok(Some(fronts)),
            Err(_) => Err(Unopened::ReadFailed),
        },
        Err(Unopened::Fault(_)) => Ok(None),
        Err(_) => Err(Unopened::ReadFailed),
    }
}

/// Whether the area that counted at the look `before` has its gate and generation at the look `after`. If none counted: whether both looks found
/// equal fronts.
fn has_stayed(second: Option<bool>, before: Fronts, after: Fronts) -> bool
    ensures { IsTrue result ↔ StayedOpen second before after }
{
    match second {
        Some(second) => after.front(second) == before.front(second),
        None => after == before,
    }
}

/// Whether what counted at the look `before` still counts at the look `after`.
pub(crate) fn is_still(before: Option<Fronts>, after: Option<Fronts>) -> bool
    ensures { IsTrue result ↔ CountsStill before after }
{
    match (before, after) {
        (Some(before), Some(after)) => {
            after.areas == before.areas && has_stayed(before.counting(), before, after)
        }
        (None, None) => true,
        _ => false,
    }
}

/// What came of opening a device. Either the answer is that of one moment, or the device was written meanwhile, so that it may not be.
#[derive(Drop)]
pub enum Tried {
    Steady(Result<Opened, Unopened>),
    Changed,
}

/// Opens a device between two looks. If a call on the device fails, it answers ReadFailed at once, since nothing is known after such a call.
fn open_once<D: Disk>(alloc: Global, disk: &mut D) -> Tried
    ensures counts { Counts (has_tried result) (D.size_of disk.old) (D.size_of disk.new) (D.failures_of disk.old) (D.failures_of disk.new) }
    ensures premise { WereTrue (D.reads disk.old) (D.reads disk.new) }
    ensures kept { IsUnwritten (D.failures_of disk.old) (D.failures_of disk.new) (D.state disk.old).now (D.state disk.new).now }
    ensures leaves { LeavesNothingNew (D.state disk.old) (D.state disk.new) }
    ensures is { AreTrue (D.reads disk.new) → OfSteady (ReadAnswer (λ opened. opened) (verdict (D.state disk.old).now.bytes)) result }
{
    let Ok(before) = look(disk) else {
        return Tried::Steady(Err(Unopened::ReadFailed));
    };
    let answer = match open(alloc, disk) {
        Err(Unopened::ReadFailed) => return Tried::Steady(Err(Unopened::ReadFailed)),
        answer => answer,
    };
    match look(disk) {
        Ok(after) if is_still(before, after) => Tried::Steady(answer),
        Ok(_) => Tried::Changed,
        Err(_) => Tried::Steady(Err(Unopened::ReadFailed)),
    }
}

/// Opens a device that another process may be running. The answer is what opening it would answer at one moment of the call, or `Changed` if it
/// couldn't be read as it was at one moment. If each read gave what the device held, the answer is that of opening, and never `Changed`. Nothing is
/// written.
pub fn open_steady<D: Disk>(alloc: Global, disk: &mut D) -> Tried
    ensures counts { Counts (has_tried result) (D.size_of disk.old) (D.size_of disk.new) (D.failures_of disk.old) (D.failures_of disk.new) }
    ensures premise { WereTrue (D.reads disk.old) (D.reads disk.new) }
    ensures kept { IsUnwritten (D.failures_of disk.old) (D.failures_of disk.new) (D.state disk.old).now (D.state disk.new).now }
    ensures leaves { LeavesNothingNew (D.state disk.old) (D.state disk.new) }
    ensures is { AreTrue (D.reads disk.new) → OfSteady (ReadAnswer (λ opened. opened) (verdict (D.state disk.old).now.bytes)) result }
{
    let mut left = MAX_TRIES;
    while left > 0 {
        left -= 1;
        if let Tried::Steady(answer) = open_once(alloc, disk) {
            return Tried::Steady(answer);
        }
    }
    Tried::Changed
}
