//! Whether processes wait for other nodes. It is said after a stream that ended because nothing was left to do.

ghost use Rattle.std.specs.Prelude.{◌≡◌, IfOk, IfErr};
ghost use Rattle.tp_views.specs.Lower.{LeavesNothingNew, AreTrue, WereTrue};
ghost use Rattle.tp_views.specs.Inside.{HasInside, waits_within};
ghost use Rattle.tp_views.specs.Opens.{IsUnwritten};
ghost use Rattle.tp_views.specs.Refused.{IsViewFault};

use crate::explanations::looking::open_to_read;
use crate::refusal::Refusal;
use crate::steady::{Tried, open_steady};
use crate::waits::scene::scene_of;
use crate::waits::waiting::waits_inside;
use std::alloc::{AllocError, Global};
use std::fs::{Files, OpenFile};
use std::io::Write;
use std::os::unix::fs::FileExt;
use tp_disk::Disk;
use tp_recover::Opened;
use tp_words::Shown;

/// Whether a process of an opened device waits for another node.
fn waits_within(alloc: Global, opened: Opened) -> Result<bool, AllocError>
    ensures { IfOk result (λ inside. inside ≡ waits_within opened) }
{
    let (head, network, _kept) = opened.into_parts();
    let wires = head.topology().wires();
    let scene = scene_of(alloc, wires, &network)?;
    Ok(waits_inside(&scene))
}

/// Whether a process of a device waits for another node. Nothing is written to the device.
pub fn has_inside<D: Disk>(alloc: Global, disk: &mut D) -> Result<bool, Refusal>
    ensures found { AreTrue (D.reads disk.new) → IfOk result (HasInside (D.state disk.old).now.bytes) }
    ensures kept { IsUnwritten (D.failures_of disk.old) (D.failures_of disk.new) (D.state disk.old).now (D.state disk.new).now }
    ensures premise { WereTrue (D.reads disk.old) (D.reads disk.new) }
    ensures leaves { LeavesNothingNew (D.state disk.old) (D.state disk.new) }
    ensures fault { IfErr result IsViewFault }
{
    let Tried::Steady(answer) = open_steady(alloc, disk) else {
        return Err(Refusal::Busy);
    };
    let opened = answer?;
    match waits_within(alloc, opened) {
        Ok(inside) => Ok(inside),
        Err(_) => Err(Refusal::Memory),
    }
}

/// Says of a device whether processes wait for other nodes, and which command shows them. If the device doesn't open, it says nothing.
pub fn tell_inside<R: Files<File = F> + AllocGlobal, F: FileExt + OpenFile + Drop, E: Write>(
    rt: &R,
    device: &str,
    err: &mut E,
) {
    let Ok(mut disk) = open_to_read(rt, device) else {
        return;
    };
    if let Ok(true) = has_inside(rt.alloc(), &mut disk) {
        let shown = Shown::all(device);
        let _ = write!(
            err,
            "  Processes wait at links between nodes: tpnet waits {shown} says for whom and why.\n"
        );
    }
}
