//! Opening a device, each node by itself.

ghost use Rattle.std.specs.Prelude.{◌≡◌, ◌^◌, ◌<◌, ◌≤◌, IfOk};
ghost use Rattle.tp_recover.specs.Lower.{AreTrue, WereTrue, areas_end, content_of, Sync, done, Counts, t414, t414_ends, area_in, verdict};
ghost use Rattle.tp_recover.specs.Reading.{has_read, ReadAnswer, LeavesAlone, LeavesNothingNew};

use crate::area::start::Start;
use crate::area::taken::{Taken, read_taken};
use crate::journal::played::play_rows;
use crate::opening::{Opened, read_chosen};
use crate::unopened::Unopened;
use std::alloc::Global;
use std::thread::Threads;
use tp_area::Head;
use tp_disk::Disk;
use tp_replay::Gate;

/// Opens the device with `head`, as `open_area` does, by the pieces of its network: its second area if `second` is true, else its first.
fn open_apart<D: Disk, R: Threads + Sync, G: Gate + Sync>(
    alloc: Global,
    disk: &mut D,
    head: Head,
    second: bool,
    workers: u8,
    gate: &G,
    rt: &R,
) -> Result<Opened, Unopened>
    requires some { 0 < workers }
    requires inside { areas_end head.areas ≤ D.size_of disk.old }
    ensures counts { Counts (has_read result) (D.size_of disk.old) (D.size_of disk.new) (D.failures_of disk.old) (D.failures_of disk.new) }
    ensures premise { WereTrue (D.reads disk.old) (D.reads disk.new) }
    ensures kept { LeavesAlone result (D.state disk.old).now (D.state disk.new).now }
    ensures leaves { LeavesNothingNew (D.state disk.old) (D.state disk.new) }
    ensures head { IfOk result (λ opened. opened.head ≡ head) }
    ensures is { AreTrue (D.reads disk.new) → ReadAnswer (λ opened. opened) (area_in t414 t414_ends head second (content_of head.areas second (D.state disk.old).now.bytes)) result }
{
    let Taken { start, rows, end } = read_taken(alloc, disk, &head, second)?;
    let Start { front, cut, replay } = start;
    let (network, _, _) = replay.into_parts();
    let (replay, end) = play_rows(alloc, network, rows, end, workers, gate, rt)?;
    Ok(Opened {
        head,
        second,
        generation: front.generation,
        form: front.form,
        base: front.base,
        cut,
        replay,
        end,
    })
}

/// Opens a device, as `open` does, each node by itself. Its entries are replayed by pieces of its network, one for each worker that gets a
/// node, and one for the host. Each piece is the job of a thread of its own. When one begins that has nodes, it calls the gate at point 7
/// (`tp_replay::PIECE_BEGUN`) with the first of them.
///
/// The answer is what `open` answers, word for word, for any number of workers. All rows are read before the first entry is replayed. So if
/// the device fails, or memory is out, while later rows are read, that is the answer even if an earlier entry is damaged.
pub fn open_parallel<D: Disk, R: Threads + Sync, G: Gate + Sync>(
    alloc: Global,
    disk: &mut D,
    workers: u8,
    gate: &G,
    rt: &R,
) -> Result<Opened, Unopened>
    requires { (1 ≤ workers) × (workers ≤ 64) }
    ensures counts { Counts (has_read result) (D.size_of disk.old) (D.size_of disk.new) (D.failures_of disk.old) (D.failures_of disk.new) }
    ensures premise { WereTrue (D.reads disk.old) (D.reads disk.new) }
    ensures kept { LeavesAlone result (done Sync (D.state disk.old).now) (D.state disk.new).now }
    ensures leaves { LeavesNothingNew (D.state disk.old) (D.state disk.new) }
    ensures whole { IfOk result (λ opened. areas_end opened.head.areas ≤ D.size_of disk.old) }
    ensures counted { IfOk result (λ opened. D.size_of disk.old < 2 ^ 64) }
    ensures is { AreTrue (D.reads disk.new) → ReadAnswer (λ opened. opened) (verdict (D.state disk.old).now.bytes) result }
{
    let (head, second) = read_chosen(disk)?;
    open_apart(alloc, disk, head, second, workers, gate, rt)
}
