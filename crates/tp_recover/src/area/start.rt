//! The network of a cut, before the entries after it are replayed.

ghost use Rattle.std.specs.Prelude.{◌≡◌, ◌+◌, ◌*◌, ◌≤◌, All, IfOk, vec_len};
ghost use Rattle.tp_recover.specs.Lower.{AreTrue, WereTrue, port_made, areas_end, content_of, Counts, MAX_HELD, LINE_TOKENS, IsFlat};
ghost use Rattle.tp_recover.specs.Cuts.{network_of_cut};
ghost use Rattle.tp_recover.specs.Nodes.{AreAllThawed};
ghost use Rattle.tp_recover.specs.Reading.{has_read, ReadAnswer, LeavesAlone, LeavesNothingNew};
ghost use Rattle.tp_recover.specs.Starts.{read_in, read_of, IsStart};

use crate::area::cut::{Cut, read_cut};
use crate::area::front::read_front;
use crate::unopened::Unopened;
use std::alloc::{AllocError, Global};
use tp_area::{CutFront, Head};
use tp_book::{CutNetwork, lines_with, ports_with};
use tp_disk::Disk;
use tp_model::WireEnd;
use tp_replay::{FlatNetwork, Replay};

/// An area before its groups are replayed: the fields before its cut, the cut as contracts see it, and the network.
#[derive(Drop)]
pub(crate) struct Start {
    pub(crate) front: CutFront,
    pub(crate) cut: CutNetwork,
    pub(crate) replay: Replay,
}

/// Makes the network of a cut with `wires`.
fn flat_network(
    alloc: Global,
    wires: &[Option<WireEnd>],
    cut: Cut,
) -> Result<FlatNetwork, AllocError>
    requires flat { IsFlat (network_of_cut wires.now cut) }
    requires thawed { AreAllThawed cut.nodes.items }
    requires few { All (λ line. vec_len line ≤ LINE_TOKENS) cut.lines.items }
    requires pending { All (λ port. vec_len port.pending ≤ MAX_HELD) cut.ports.items }
    requires outputs { All (λ port. vec_len port.outputs ≤ MAX_HELD) cut.ports.items }
    ensures { IfOk result (λ network. network ≡ network_of_cut wires.now cut) }
{
    let lines = lines_with(alloc, &cut.lines)?;
    let ports = ports_with(alloc, &cut.ports)?;
    let wires = Vec::from_slice(alloc, wires)?;
    Ok(FlatNetwork::new(wires, cut.nodes, lines, ports))
}

/// Gives the network as contracts see it. It does nothing.
fn cut_of(network: &FlatNetwork) -> CutNetwork
    ensures { result.network ≡ network.now }
{
    CutNetwork::of(network)
}

/// Reads what comes before an area's groups, and makes its network ready.
pub(crate) fn read_start<D: Disk>(
    alloc: Global,
    disk: &mut D,
    head: &Head,
    second: bool,
) -> Result<Start, Unopened>
    requires { areas_end head.now.areas ≤ D.size_of disk.old }
    ensures counts { Counts (has_read result) (D.size_of disk.old) (D.size_of disk.new) (D.failures_of disk.old) (D.failures_of disk.new) }
    ensures premise { WereTrue (D.reads disk.old) (D.reads disk.new) }
    ensures kept { LeavesAlone result (D.state disk.old).now (D.state disk.new).now }
    ensures leaves { LeavesNothingNew (D.state disk.old) (D.state disk.new) }
    ensures start { IfOk result (IsStart head.now) }
    ensures is { AreTrue (D.reads disk.new) → ReadAnswer read_of (read_in head.now second (content_of head.now.areas second (D.state disk.old).now.bytes)) result }
{
    let front = read_front(disk, head, second)?;
    let cut = read_cut(alloc, disk, head, second, front.base)?;
    let Ok(network) = flat_network(alloc, head.topology().wires(), cut) else {
        return Err(Unopened::Memory);
    };
    let cut = cut_of(&network);
    let replay = Replay::start(alloc, front.form, network, front.base);
    Ok(Start { front, cut, replay })
}
