//! `tpnet compact`, on a device's file.

ghost use Rattle.std.specs.Prelude.{◌≡◌, ◌≤◌, Some, string_bytes};
ghost use Rattle.tp_run.specs.Ran.{History};
ghost use Rattle.tp_program.specs.CompactFile.{CompactedFile};

use crate::compacting::compact_on;
use crate::devices::{Devices, refuse_opening, refuse_special};
use std::fs::Files;
use std::io;
use std::io::Write;
use std::sync::Wait;
use tp_disk::Disk;
use tp_views::is_openable;

/// `tpnet compact`, on a device's file, which is held. It opens the file as it is, and keeps its length. If a call on it fails, what the system said
/// goes into `system`.
#[inline(never)]
pub(crate) fn compact_file<
    R: Files + AllocGlobal + Wait,
    S: Devices<Device = D>,
    D: Disk + Drop,
    O: Write,
    E: Write,
>(
    rt: &R,
    devices: &mut S,
    device: &String,
    system: &mut Option<io::Error>,
    out: &mut O,
    err: &mut E,
) -> u8
    ghost history: { History }
    requires { S.held devices.old ≡ Some (string_bytes device.now) }
    ensures few { result ≤ 1 }
    ensures compacted { CompactedFile history (string_bytes device.now) (S.calls devices.old) (S.calls devices.new) (O.contents out.old) (O.contents out.new) result }
{
    if !is_openable(rt, device.as_str()) {
        return refuse_special(devices, device.as_str(), system, err);
    }
    let disk = match devices.open(device.as_str()) {
        Ok(disk) => disk,
        Err(error) => return refuse_opening(error, system, err),
    };
    let (disk, status) = compact_on(rt, rt.alloc(), disk, out, err);
    *system = devices.close(disk);
    status
}
