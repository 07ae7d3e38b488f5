//! `tpnet compact`, over any device.

ghost use Rattle.std.specs.Prelude.{◌≡◌, ◌≤◌, true, IfErr, IfOk, IsErr, Ok, OnOk, string_bytes};
ghost use Rattle.tp_program.specs.Lower.{AreTrue, Appends, verdict, LeavesNothingNew, History, Steps, IsPrintFault};
ghost use Rattle.tp_program.specs.Compacting.{CompactedAs, PrintsDone, compaction_line};

use std::alloc::Global;
use std::io::Write;
use std::sync::Wait;
use tp_disk::Disk;
use tp_run::{CompactFault, Compaction, compact};
use tp_views::{Refusal, put, refuse};

/// Gives the line that is printed of a device that was compacted.
fn compaction_line(alloc: Global, done: Compaction) -> Result<String, Refusal>
    ensures line { IfOk result (λ text. string_bytes text ≡ compaction_line done) }
    ensures memory { IfErr result (λ refusal. refusal ≡ Refusal.Memory) }
{
    let Compaction {
        next,
        generation,
        room,
    } = done;
    Ok(format!(in alloc; "generation {generation} next {next} room {room}\n")?)
}

fn print_done<O: Write>(alloc: Global, done: Compaction, out: &mut O) -> Result<(), Refusal>
    ensures printed { OnOk result (Appends (O.contents out.old) (O.contents out.new) (compaction_line done)) }
    ensures fault { IfErr result IsPrintFault }
{
    let text = compaction_line(alloc, done)?;
    put(out, text.as_bytes())
}

/// Says why a device wasn't compacted. Answers the status. Ignores a failed write.
fn refuse_compaction<E: Write>(err: &mut E, fault: CompactFault) -> u8
    ensures { result ≡ 1 }
{
    let _ = write!(err, "tpnet: {fault}\n");
    1
}

/// Prints what a compacted device has, or says why it wasn't compacted. Answers the status.
fn report<O: Write, E: Write>(
    alloc: Global,
    done: Result<Compaction, CompactFault>,
    out: &mut O,
    err: &mut E,
) -> u8
    ensures status { result ≤ 1 }
    ensures printed { result ≡ 0 → PrintsDone done (O.contents out.old) (O.contents out.new) }
    ensures refused { IsErr done → (result ≡ 1) × (O.contents out.new ≡ O.contents out.old) }
{
    let done = match done {
        Ok(done) => done,
        Err(fault) => return refuse_compaction(err, fault),
    };
    match print_done(alloc, done, out) {
        Ok(()) => 0,
        Err(refusal) => refuse(err, refusal),
    }
}

/// `tpnet compact`, on a device: it makes its network as it is the cut, so that its journal is empty. Prints the generation of that cut, the number
/// that the next entry gets, and how many entries the journal takes. Answers the device, and the program's status: 0 if that was done and printed,
/// else 1. If a device doesn't open, it stays as it is, and nothing is printed.
pub fn compact_on<D: Disk, O: Write, E: Write, R: Wait>(
    rt: &R,
    alloc: Global,
    disk: D,
    out: &mut O,
    err: &mut E,
) -> (D, u8)
    ghost history: { History }
    requires { Steps → D.writable ≡ true }
    ensures status { result.1 ≤ 1 }
    ensures size { D.size_of result.0 ≡ D.size_of disk }
    ensures done { CompactedAs history (D.state disk) (D.state result.0) (D.reads result.0) (O.contents out.old) (O.contents out.new) result.1 }
    ensures unopened { AreTrue (D.reads result.0) → IsErr (verdict (D.state disk).now.bytes) → (result.1 ≡ 1) × LeavesNothingNew (D.state disk) (D.state result.0) × (O.contents out.new ≡ O.contents out.old) }
{
    let (disk, done) = compact(rt, alloc, disk);
    (disk, report(alloc, done, out, err))
}
