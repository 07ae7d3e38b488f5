//! `tpnet backup`, over any device and any copy.

ghost use Rattle.std.specs.Prelude.{◌≡◌, true, IfErr, IfNone, IfOk, IfSome, IsErr, IsSome, IsSomeAnd, string_bytes};
ghost use Rattle.tp_program.specs.Lower.{AreTrue, WereTrue, AskedLast, CopyAnswer, HasStayed, area_kept, verdict, LeavesNothingNew, Copies};
ghost use Rattle.tp_program.specs.Backups.{FoundAsOpened, IsBackup, copied_line, copy_refusal};

use std::alloc::{AllocError, Global};
use std::io;
use std::io::Write;
use tp_disk::Disk;
use tp_recover::{Copied, CopyFault, Opened, Unopened, copy_opened, open};
use tp_views::{Refusal, refuse, show_on};

/// How many times a device is opened that another process writes meanwhile.
const MAX_TRIES: u32 = 20;

/// Gives the line that is printed of a copy.
pub(crate) fn copied_line(alloc: Global, next: u64) -> Result<String, AllocError>
    ensures { IfOk result (λ text. string_bytes text ≡ copied_line next) }
{
    format!(in alloc; "copied next {next}\n")
}

/// Gives the refusal that tells why a copy failed.
fn refusal_of(fault: CopyFault) -> Refusal
    ensures { result ≡ copy_refusal fault }
{
    match fault {
        CopyFault::ReadFailed => Refusal::ReadFailed,
        CopyFault::DeviceFailed => Refusal::DeviceFailed,
        CopyFault::Memory => Refusal::Memory,
    }
}

/// Copies an opened device. If that fails, it says why, and fails with the status.
fn copy_or_refuse<D: Disk, K: Disk, E: Write>(
    alloc: Global,
    source: &mut D,
    copy: &mut K,
    opened: Opened,
    err: &mut E,
) -> Result<Option<Copied>, u8>
    requires { Copies → K.writable ≡ true }
    ensures status { IfErr result (λ status. status ≡ 1) }
    ensures premise { WereTrue (D.reads source.old) (D.reads source.new) }
    ensures kept { IfOk result (λ found. (D.state source.new).now ≡ (D.state source.old).now) }
    ensures leaves { LeavesNothingNew (D.state source.old) (D.state source.new) }
    ensures is { AreTrue (D.reads source.new) → AreTrue (K.reads copy.new) → IfOk result (CopyAnswer (area_kept opened) (D.state source.old).now.bytes (K.state copy.old).now (K.state copy.new).now) }
    ensures stayed { AreTrue (D.reads source.new) → IfOk result (λ found. IfNone found (HasStayed (area_kept opened) (D.state source.old).now.bytes → ⊥)) }
    ensures asked { IfOk result (λ found. IfSome found (λ copied. AskedLast (area_kept opened) (D.state source.new) copied.asked)) }
{
    match copy_opened(alloc, source, copy, opened) {
        Ok(found) => Ok(found),
        Err(fault) => Err(refuse(err, refusal_of(fault))),
    }
}

/// Opens and copies a device once. Answers `None` if another process wrote the device meanwhile, and another try may succeed: `show` then opens it,
/// or another area is open now than the one that was copied. If each read of the device gave what it held, it never answers `None`. If it fails, it
/// says why there is no copy, and fails with the status.
fn copy_once<D: Disk, K: Disk, E: Write>(
    alloc: Global,
    source: &mut D,
    copy: &mut K,
    err: &mut E,
) -> Result<Option<Copied>, u8>
    requires { Copies → K.writable ≡ true }
    ensures status { IfErr result (λ status. status ≡ 1) }
    ensures premise { WereTrue (D.reads source.old) (D.reads source.new) }
    ensures kept { AreTrue (D.reads source.new) → IfOk result (λ found. (D.state source.new).now.bytes ≡ (D.state source.old).now.bytes) }
    ensures leaves { LeavesNothingNew (D.state source.old) (D.state source.new) }
    ensures copied { AreTrue (D.reads source.new) → AreTrue (K.reads copy.new) → IfOk result (λ found. IsSomeAnd found (λ copied. IsBackup (D.state source.old).now.bytes (K.state copy.old).now.bytes (K.state copy.new).now copied.next)) }
    ensures some { AreTrue (D.reads source.new) → IfOk result IsSome }
    ensures asked { IfOk result (λ found. IfSome found (λ copied. FoundAsOpened (AreTrue (D.reads source.new)) (D.state source.old).now.bytes (D.state source.new) copied.asked)) }
    ensures unopened { AreTrue (D.reads source.new) → IsErr (verdict (D.state source.old).now.bytes) → IsErr result }
{
    match open(alloc, source) {
        Ok(opened) => copy_or_refuse(alloc, source, copy, opened, err),
        Err(Unopened::Fault(_)) => match show_on(alloc, source, false, &mut io::sink(), err) {
            0 => Ok(None),
            status => Err(status),
        },
        Err(unopened) => Err(refuse(err, Refusal::Opening(unopened))),
    }
}

/// Makes a copy of a device that another process may be running, over what is in `copy`, which must have at least as many bytes. Answers the number
/// of the copy's next entry. Then the device opens, and the copy is synced and has all of it that counts. The copy opens to the areas, open area,
/// generation, end of the groups and next number of the device. The last call of the device asked for the gate and generation of the area that was
/// copied, and it answered what opening had found (`asked`).
///
/// If that fails, it says why, as `show` does if the device doesn't open, and fails with the status 1; then nothing is known of the copy. It writes
/// nothing to the device, so a crash leaves there nothing that this call made.
pub fn backup_on<D: Disk, K: Disk, E: Write>(
    alloc: Global,
    source: &mut D,
    copy: &mut K,
    err: &mut E,
) -> Result<Copied, u8>
    requires { Copies → K.writable ≡ true }
    ensures status { IfErr result (λ status. status ≡ 1) }
    ensures premise { WereTrue (D.reads source.old) (D.reads source.new) }
    ensures leaves { LeavesNothingNew (D.state source.old) (D.state source.new) }
    ensures copied { AreTrue (D.reads source.new) → AreTrue (K.reads copy.new) → IfOk result (λ copied. IsBackup (D.state source.old).now.bytes (K.state copy.old).now.bytes (K.state copy.new).now copied.next) }
    ensures asked { IfOk result (λ copied. FoundAsOpened (AreTrue (D.reads source.new)) (D.state source.old).now.bytes (D.state source.new) copied.asked) }
    ensures unopened { AreTrue (D.reads source.new) → IsErr (verdict (D.state source.old).now.bytes) → IsErr result }
{
    let mut left = MAX_TRIES;
    while left > 0 {
        left -= 1;
        if let Some(copied) = copy_once(alloc, source, copy, err)? {
            return Ok(copied);
        }
    }
    Err(refuse(err, Refusal::Busy))
}
