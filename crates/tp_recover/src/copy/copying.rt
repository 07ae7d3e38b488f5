//! Copying a device that was opened, and that another process may be running.
//!
//! Such a process writes only the area that doesn't count, and groups after the last one of the area that does (`docs/DISK.md` says in
//! which order). Opening has told which area counts, its generation, and where the closed gate after its groups is. What is between the two
//! gates stays as it is until a checkpoint writes into this area. A checkpoint first closes the area's gate, and opens it with a generation
//! that is higher by 2. **So once the bytes are copied, the area's gate and generation are read again.** If they are what opening found,
//! nothing was written there meanwhile, and the bytes are those of the moment at which the device was opened. Else there is no copy. A copy
//! comes with the device's answer, and that was the answer to the last call of the device (`AskedLast`).
//!
//! **The gate of the copy's area is opened last**, after the head is written and the closed gate after the groups. The other area's gate is
//! closed. Then the copy is opened, and has to say what opening the device said.
//!
//! **The copy has everything that was durable before the device was opened.** Let X be the area that counted then, which has all durable
//! entries. Opening reads the gates and generations of both areas after that, and chooses the open one of higher generation. If it chose X,
//! it read X's groups later, with all that they had. If it chose the other one with a higher generation than X had, that one was opened
//! since, with all of X's entries. It can't have chosen the other one with a lower generation. For that it must have found X's gate closed,
//! so a checkpoint was written into the other one since. Then the gate and generation of the other one aren't found in the end as opening
//! read them.

ghost use Rattle.std.specs.Prelude.{◌≡◌, ◌+◌, ◌^◌, ◌≤◌, ◌<◌, ◌↔◌, true, IfOk, IfNone, IfSome, IsSome, OnOk};
ghost use Rattle.tp_recover.specs.Lower.{AreTrue, WereTrue, Copies, area_start, areas_end, AREA_HEAD_BYTES};
ghost use Rattle.tp_recover.specs.Copies.{AskedLast, CopyAnswer, HasStayed, IsFinished, OpensAs, closed_copy, area_kept};
ghost use Rattle.tp_recover.specs.Reading.{LeavesNothingNew};

use crate::copy::fault::CopyFault;
use crate::copy::kept::{Kept, is_kept, kept_of, lie_in};
use crate::copy::pieces::{copy_range, put_bytes};
use crate::reading::asked::{AreaAsked, ask_area};
use crate::{Opened, Unopened, open};
use std::alloc::Global;
use tp_area::area_start;
use tp_disk::Disk;
use tp_model::limits::{GATE_CLOSED, GATE_OPEN};

/// A copy of a device: the number of its next entry, and what the device answered about the copied area once all of it was read.
#[derive(Drop)]
pub struct Copied {
    pub next: u64,
    pub asked: AreaAsked,
}

/// Writes all of a copy except its area's open gate.
fn make_closed<D: Disk, K: Disk>(source: &mut D, copy: &mut K, kept: Kept) -> Result<(), CopyFault>
    requires from { areas_end kept.areas ≤ D.size_of source.old }
    requires into { areas_end kept.areas ≤ K.size_of copy.old }
    requires counted { D.size_of source.old < 2 ^ 64 }
    requires behind { area_start kept.areas kept.second + AREA_HEAD_BYTES ≤ kept.end }
    requires inside { kept.end < area_start kept.areas kept.second + kept.areas.length }
    requires allowed { Copies → K.writable ≡ true }
    ensures source_size { D.size_of source.new ≡ D.size_of source.old }
    ensures copy_size { K.size_of copy.new ≡ K.size_of copy.old }
    ensures premise { WereTrue (D.reads source.old) (D.reads source.new) }
    ensures kept { OnOk result ((D.state source.new).now ≡ (D.state source.old).now) }
    ensures leaves { LeavesNothingNew (D.state source.old) (D.state source.new) }
    ensures bytes { AreTrue (D.reads source.new) → OnOk result ((K.state copy.new).now.bytes ≡ closed_copy kept (D.state source.old).now.bytes (K.state copy.old).now.bytes) }
{
    let start = area_start(kept.areas, kept.second);
    put_bytes(copy, start, &[GATE_CLOSED])?;
    put_bytes(copy, area_start(kept.areas, !kept.second), &[GATE_CLOSED])?;
    copy_range(source, copy, start + 1, kept.end - (start + 1))?;
    put_bytes(copy, kept.end, &[GATE_CLOSED])?;
    copy_range(source, copy, 0, kept.areas.first)
}

/// Asks whether the area that is copied still has its gate open and its generation. Answers what the device answered, or `None` if it hasn't.
fn has_stayed<D: Disk>(source: &mut D, kept: Kept) -> Result<Option<AreaAsked>, CopyFault>
    requires from { areas_end kept.areas ≤ D.size_of source.old }
    requires counted { D.size_of source.old < 2 ^ 64 }
    requires some { AREA_HEAD_BYTES ≤ kept.areas.length }
    ensures source_size { D.size_of source.new ≡ D.size_of source.old }
    ensures premise { WereTrue (D.reads source.old) (D.reads source.new) }
    ensures kept { IfOk result (λ stayed. (D.state source.new).now ≡ (D.state source.old).now) }
    ensures leaves { LeavesNothingNew (D.state source.old) (D.state source.new) }
    ensures is { AreTrue (D.reads source.new) → IfOk result (λ stayed. IsSome stayed ↔ HasStayed kept (D.state source.old).now.bytes) }
    ensures asked { IfOk result (λ stayed. IfSome stayed (AskedLast kept (D.state source.new))) }
{
    let asked = ask_area(source, area_start(kept.areas, kept.second))?;
    if asked.is_open_with(kept.generation) {
        Ok(Some(asked))
    } else {
        Ok(None)
    }
}

/// Opens a copy, which has to say what opening the device said.
#[inline(never)]
fn opens_as<K: Disk>(alloc: Global, copy: &mut K, kept: Kept) -> Result<(), CopyFault>
    ensures { AreTrue (K.reads copy.new) → OnOk result (OpensAs kept (K.state copy.old).now (K.state copy.new).now) }
{
    match open(alloc, copy) {
        Ok(opened) if is_kept(kept_of(&opened), kept) => Ok(()),
        Err(Unopened::Memory) => Err(CopyFault::Memory),
        _ => Err(CopyFault::DeviceFailed),
    }
}

/// Opens the area's gate of a copy, which then has to say what opening the device said.
fn finish<K: Disk>(alloc: Global, copy: &mut K, kept: Kept) -> Result<(), CopyFault>
    requires into { areas_end kept.areas ≤ K.size_of copy.old }
    requires counted { areas_end kept.areas < 2 ^ 64 }
    requires some { AREA_HEAD_BYTES ≤ kept.areas.length }
    requires allowed { Copies → K.writable ≡ true }
    ensures { AreTrue (K.reads copy.new) → OnOk result (IsFinished kept (K.state copy.old).now (K.state copy.new).now) }
{
    put_bytes(copy, area_start(kept.areas, kept.second), &[GATE_OPEN])?;
    opens_as(alloc, copy, kept)
}

/// Copies what of a device is copied. Answers `None` if that didn't stay as it was.
#[inline(never)]
fn copy_kept<D: Disk, K: Disk>(
    alloc: Global,
    source: &mut D,
    copy: &mut K,
    kept: Kept,
) -> Result<Option<Copied>, CopyFault>
    requires behind { area_start kept.areas kept.second + AREA_HEAD_BYTES ≤ kept.end }
    requires inside { kept.end < area_start kept.areas kept.second + kept.areas.length }
    requires allowed { Copies → K.writable ≡ true }
    ensures premise { WereTrue (D.reads source.old) (D.reads source.new) }
    ensures kept { IfOk result (λ found. (D.state source.new).now ≡ (D.state source.old).now) }
    ensures leaves { LeavesNothingNew (D.state source.old) (D.state source.new) }
    ensures is { AreTrue (D.reads source.new) → AreTrue (K.reads copy.new) → IfOk result (CopyAnswer kept (D.state source.old).now.bytes (K.state copy.old).now (K.state copy.new).now) }
    ensures stayed { AreTrue (D.reads source.new) → IfOk result (λ found. IfNone found (HasStayed kept (D.state source.old).now.bytes → ⊥)) }
    ensures asked { IfOk result (λ found. IfSome found (λ copied. AskedLast kept (D.state source.new) copied.asked)) }
{
    if !lie_in(kept.areas, source.size()) {
        return Err(CopyFault::ReadFailed);
    }
    if !lie_in(kept.areas, copy.size()) {
        return Err(CopyFault::DeviceFailed);
    }
    make_closed(source, copy, kept)?;
    let Some(asked) = has_stayed(source, kept)? else {
        return Ok(None);
    };
    finish(alloc, copy, kept)?;
    Ok(Some(Copied {
        next: kept.next,
        asked,
    }))
}

/// Copies a device that was `opened`, and that another process may be running, over what is in `copy`, which has to be at least as large.
/// Writes nothing to the device, and a crash finds nothing there that the call made.
///
/// Answers the number of the next entry. All of the copy is then synced. It opens to the area, the generation, the form, the end of the
/// groups and the number to which the device was opened. After the last read that went into the copy, the device was asked for the area's gate
/// and generation, and answered what opening found (`asked`). Answers `None` if it answers otherwise. Then the copy's gates are closed, and it
/// has to be made again, of the device as it then opens.
///
/// Fails with `ReadFailed` if the device does, with `DeviceFailed` if the copy does, or with `Memory`.
pub fn copy_opened<D: Disk, K: Disk>(
    alloc: Global,
    source: &mut D,
    copy: &mut K,
    opened: Opened,
) -> Result<Option<Copied>, CopyFault>
    requires { Copies → K.writable ≡ true }
    ensures premise { WereTrue (D.reads source.old) (D.reads source.new) }
    ensures kept { IfOk result (λ found. (D.state source.new).now ≡ (D.state source.old).now) }
    ensures leaves { LeavesNothingNew (D.state source.old) (D.state source.new) }
    ensures is { AreTrue (D.reads source.new) → AreTrue (K.reads copy.new) → IfOk result (CopyAnswer (area_kept opened) (D.state source.old).now.bytes (K.state copy.old).now (K.state copy.new).now) }
    ensures stayed { AreTrue (D.reads source.new) → IfOk result (λ found. IfNone found (HasStayed (area_kept opened) (D.state source.old).now.bytes → ⊥)) }
    ensures asked { IfOk result (λ found. IfSome found (λ copied. AskedLast (area_kept opened) (D.state source.new) copied.asked)) }
{
    let kept = kept_of(&opened);
    drop(opened);
    copy_kept(alloc, source, copy, kept)
}
