//! `tpnet recover` and `tpnet show`, over any device.

ghost use Rattle.std.specs.Prelude.{◌≡◌, ◌≤◌, IfOk, IsErr, OnOk, string_bytes, IfErr};
ghost use Rattle.tp_views.specs.Lower.{AreTrue, WereTrue, verdict, LeavesNothingNew};
ghost use Rattle.tp_views.specs.Front.{PrintsFront};
ghost use Rattle.tp_views.specs.Opens.{IsUnwritten, Prints, front_said, recovered, shown};
ghost use Rattle.tp_views.specs.Refused.{IsViewFault};

use crate::by_workers::open_steady_by;
use crate::commands::{put, refuse};
use crate::refusal::Refusal;
use crate::steady::{Tried, open_steady};
use crate::text::shown::{Front, next_line, shown_text};
use std::alloc::{AllocError, Global};
use std::io::Write;
use std::thread::Threads;
use tp_disk::Disk;
use tp_recover::Opened;

/// Gives what is said of an opened device besides its network.
fn front_of(opened: &Opened) -> Front
    ensures { result ≡ front_said opened.now }
{
    Front {
        area: opened.head().areas().length,
        second: opened.second(),
        generation: opened.generation(),
        base: opened.base(),
        entries: opened.kept().len(),
        next: opened.next(),
    }
}

fn recover<D: Disk, O: Write, R: Threads + Sync>(
    rt: &R,
    alloc: Global,
    disk: &mut D,
    workers: u8,
    out: &mut O,
) -> Result<(), Refusal>
    ensures done { AreTrue (D.reads disk.new) → OnOk result (Prints recovered (D.state disk.old).now.bytes (O.contents out.old) (O.contents out.new)) }
    ensures premise { WereTrue (D.reads disk.old) (D.reads disk.new) }
    ensures leaves { LeavesNothingNew (D.state disk.old) (D.state disk.new) }
    ensures front { AreTrue (D.reads disk.new) → PrintsFront recovered (D.state disk.old).now.bytes (O.contents out.old) (O.contents out.new) }
    ensures kept { IsUnwritten (D.failures_of disk.old) (D.failures_of disk.new) (D.state disk.old).now (D.state disk.new).now }
    ensures refused { AreTrue (D.reads disk.new) → IsErr (verdict (D.state disk.old).now.bytes) → (IsErr result) × (O.contents out.new ≡ O.contents out.old) }
    ensures fault { IfErr result IsViewFault }
{
    let Tried::Steady(answer) = open_steady_by(rt, alloc, disk, workers) else {
        return Err(Refusal::Busy);
    };
    let opened = answer?;
    let text = next_line(alloc, opened.next())?;
    put(out, text.as_bytes())
}

/// Gives what is shown of an opened device, as lines or as JSON.
fn text_of(alloc: Global, json: bool, opened: &Opened) -> Result<String, AllocError>
    ensures { IfOk result (λ text. string_bytes text ≡ shown json opened.now) }
{
    shown_text(alloc, json, front_of(opened), opened.network())
}

fn show<D: Disk, O: Write>(
    alloc: Global,
    disk: &mut D,
    json: bool,
    out: &mut O,
) -> Result<(), Refusal>
    ensures done { AreTrue (D.reads disk.new) → OnOk result (Prints (shown json) (D.state disk.old).now.bytes (O.contents out.old) (O.contents out.new)) }
    ensures premise { WereTrue (D.reads disk.old) (D.reads disk.new) }
    ensures leaves { LeavesNothingNew (D.state disk.old) (D.state disk.new) }
    ensures front { AreTrue (D.reads disk.new) → PrintsFront (shown json) (D.state disk.old).now.bytes (O.contents out.old) (O.contents out.new) }
    ensures kept { IsUnwritten (D.failures_of disk.old) (D.failures_of disk.new) (D.state disk.old).now (D.state disk.new).now }
    ensures refused { AreTrue (D.reads disk.new) → IsErr (verdict (D.state disk.old).now.bytes) → (IsErr result) × (O.contents out.new ≡ O.contents out.old) }
    ensures fault { IfErr result IsViewFault }
{
    let Tried::Steady(answer) = open_steady(alloc, disk) else {
        return Err(Refusal::Busy);
    };
    let opened = answer?;
    let text = text_of(alloc, json, &opened)?;
    put(out, text.as_bytes())
}

/// `tpnet recover`, on a device, which `workers` threads open. Answers the program's status: 0 if the device opens and exactly its line was printed,
/// else 1. It writes nothing to the device, so a crash leaves there nothing that this call made. If the device doesn't open, nothing is printed.
pub fn recover_on<D: Disk, O: Write, E: Write, R: Threads + Sync>(
    rt: &R,
    alloc: Global,
    disk: &mut D,
    workers: u8,
    out: &mut O,
    err: &mut E,
) -> u8
    ensures status { result ≤ 1 }
    ensures done { AreTrue (D.reads disk.new) → result ≡ 0 → Prints recovered (D.state disk.old).now.bytes (O.contents out.old) (O.contents out.new) }
    ensures premise { WereTrue (D.reads disk.old) (D.reads disk.new) }
    ensures leaves { LeavesNothingNew (D.state disk.old) (D.state disk.new) }
    ensures front { AreTrue (D.reads disk.new) → PrintsFront recovered (D.state disk.old).now.bytes (O.contents out.old) (O.contents out.new) }
    ensures kept { IsUnwritten (D.failures_of disk.old) (D.failures_of disk.new) (D.state disk.old).now (D.state disk.new).now }
    ensures refused { AreTrue (D.reads disk.new) → IsErr (verdict (D.state disk.old).now.bytes) → (result ≡ 1) × (O.contents out.new ≡ O.contents out.old) }
{
    match recover(rt, alloc, disk, workers, out) {
        Ok(()) => 0,
        Err(refusal) => refuse(err, refusal),
    }
}

/// `tpnet show`, on a device, as lines or as JSON. Answers the program's status: 0 if the device opens and exactly that was printed, else 1. It
/// writes nothing to the device, so a crash leaves there nothing that this call made. If the device doesn't open, nothing is printed.
pub fn show_on<D: Disk, O: Write, E: Write>(
    alloc: Global,
    disk: &mut D,
    json: bool,
    out: &mut O,
    err: &mut E,
) -> u8
    ensures status { result ≤ 1 }
    ensures done { AreTrue (D.reads disk.new) → result ≡ 0 → Prints (shown json) (D.state disk.old).now.bytes (O.contents out.old) (O.contents out.new) }
    ensures premise { WereTrue (D.reads disk.old) (D.reads disk.new) }
    ensures leaves { LeavesNothingNew (D.state disk.old) (D.state disk.new) }
    ensures front { AreTrue (D.reads disk.new) → PrintsFront (shown json) (D.state disk.old).now.bytes (O.contents out.old) (O.contents out.new) }
    ensures kept { IsUnwritten (D.failures_of disk.old) (D.failures_of disk.new) (D.state disk.old).now (D.state disk.new).now }
    ensures refused { AreTrue (D.reads disk.new) → IsErr (verdict (D.state disk.old).now.bytes) → (result ≡ 1) × (O.contents out.new ≡ O.contents out.old) }
{
    match show(alloc, disk, json, out) {
        Ok(()) => 0,
        Err(refusal) => refuse(err, refusal),
    }
}
