//! `tpnet status`: one check of a device.

ghost use Rattle.std.specs.Prelude.{◌≡◌, ◌⊎◌, IfErr, IfOk, IsErr, OnOk};
ghost use Rattle.tp_views.specs.Lower.{AreTrue, WereTrue, Appends, verdict, LeavesNothingNew};
ghost use Rattle.tp_views.specs.Front.{AppendsFront, PrintsFront};
ghost use Rattle.tp_views.specs.Looks.{StatusTells};
ghost use Rattle.tp_views.specs.Opens.{IsUnwritten};
ghost use Rattle.tp_views.specs.Refused.{IsPrintFault, IsViewFault};
ghost use Rattle.tp_views.specs.Status.{IsSeen, look_text};

use crate::commands::{put, refuse};
use crate::refusal::Refusal;
use crate::steady::{Tried, open_steady};
use crate::text::status::{Seen, seen_of};
use crate::text::status_text::look_text;
use std::alloc::Global;
use std::io::Write;
use tp_disk::Disk;
use tp_recover::Opened;

/// Prints the line of an opened device, as JSON or not.
fn put_line<O: Write>(
    alloc: Global,
    opened: &Opened,
    held: bool,
    at: u64,
    clock: Option<u64>,
    before: &Option<Seen>,
    json: bool,
    out: &mut O,
) -> Result<(), Refusal>
    ensures printed { OnOk result (Appends (O.contents out.old) (O.contents out.new) (look_text json held at clock before.now opened.now)) }
    ensures front { (O.contents out.new ≡ O.contents out.old) ⊎ AppendsFront (O.contents out.old) (O.contents out.new) (look_text json held at clock before.now opened.now) }
    ensures fault { IfErr result IsPrintFault }
{
    let text = look_text(alloc, json, held, at, clock, before, opened)?;
    put(out, text.as_bytes())
}

/// Prints the line of an opened device. Answers what was seen of it.
fn tell<O: Write>(
    alloc: Global,
    opened: &Opened,
    held: bool,
    at: u64,
    clock: Option<u64>,
    before: &Option<Seen>,
    json: bool,
    out: &mut O,
) -> Result<Seen, Refusal>
    ensures printed { IfOk result (λ seen. Appends (O.contents out.old) (O.contents out.new) (look_text json held at clock before.now opened.now)) }
    ensures seen { IfOk result (λ seen. IsSeen at opened.now seen) }
    ensures front { (O.contents out.new ≡ O.contents out.old) ⊎ AppendsFront (O.contents out.old) (O.contents out.new) (look_text json held at clock before.now opened.now) }
    ensures fault { IfErr result IsPrintFault }
{
    let seen = seen_of(alloc, at, opened)?;
    put_line(alloc, opened, held, at, clock, before, json, out)?;
    Ok(seen)
}

fn look<D: Disk, O: Write>(
    alloc: Global,
    disk: &mut D,
    held: bool,
    at: u64,
    clock: Option<u64>,
    before: &Option<Seen>,
    json: bool,
    out: &mut O,
) -> Result<Seen, Refusal>
    ensures done { AreTrue (D.reads disk.new) → IfOk result (StatusTells json held at clock before.now (D.state disk.old).now.bytes (O.contents out.old) (O.contents out.new)) }
    ensures premise { WereTrue (D.reads disk.old) (D.reads disk.new) }
    ensures leaves { LeavesNothingNew (D.state disk.old) (D.state disk.new) }
    ensures front { AreTrue (D.reads disk.new) → PrintsFront (look_text json held at clock before.now) (D.state disk.old).now.bytes (O.contents out.old) (O.contents out.new) }
    ensures kept { IsUnwritten (D.failures_of disk.old) (D.failures_of disk.new) (D.state disk.old).now (D.state disk.new).now }
    ensures refused { AreTrue (D.reads disk.new) → IsErr (verdict (D.state disk.old).now.bytes) → (IsErr result) × (O.contents out.new ≡ O.contents out.old) }
    ensures fault { IfErr result IsViewFault }
{
    let Tried::Steady(answer) = open_steady(alloc, disk) else {
        return Err(Refusal::Busy);
    };
    let opened = answer?;
    tell(alloc, &opened, held, at, clock, before, json, out)
}

/// Makes one check of a device for `tpnet status`. Answers what it saw, if the device opens and exactly its line was printed; else it says why, and
/// fails with the status 1. It writes nothing to the device, so a crash leaves there nothing that this call made. If the device doesn't open, nothing
/// is printed.
///
/// - `held`: whether another process holds the device
/// - `at`: the time in milliseconds
/// - `clock`: the seconds since 1970, if the time is to be printed
/// - `before`: what the check before saw
/// - `json`: whether to print JSON
pub fn status_on<D: Disk, O: Write, E: Write>(
    alloc: Global,
    disk: &mut D,
    held: bool,
    at: u64,
    clock: Option<u64>,
    before: &Option<Seen>,
    json: bool,
    out: &mut O,
    err: &mut E,
) -> Result<Seen, u8>
    ensures status { IfErr result (λ status. status ≡ 1) }
    ensures done { AreTrue (D.reads disk.new) → IfOk result (StatusTells json held at clock before.now (D.state disk.old).now.bytes (O.contents out.old) (O.contents out.new)) }
    ensures premise { WereTrue (D.reads disk.old) (D.reads disk.new) }
    ensures leaves { LeavesNothingNew (D.state disk.old) (D.state disk.new) }
    ensures front { AreTrue (D.reads disk.new) → PrintsFront (look_text json held at clock before.now) (D.state disk.old).now.bytes (O.contents out.old) (O.contents out.new) }
    ensures kept { IsUnwritten (D.failures_of disk.old) (D.failures_of disk.new) (D.state disk.old).now (D.state disk.new).now }
    ensures refused { AreTrue (D.reads disk.new) → IsErr (verdict (D.state disk.old).now.bytes) → (IsErr result) × (O.contents out.new ≡ O.contents out.old) }
{
    match look(alloc, disk, held, at, clock, before, json, out) {
        Ok(seen) => Ok(seen),
        Err(refusal) => Err(refuse(err, refusal)),
    }
}
