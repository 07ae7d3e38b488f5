//! A network that is joined from its parts.

ghost use Rattle.std.specs.Prelude.{◌≡◌, IfOk, length};
ghost use Rattle.tp_replay.specs.Lower.{NodeState, Network, Agrees};
ghost use Rattle.tp_replay.specs.Apart.{network_apart};
ghost use Rattle.tp_replay.specs.Dealing.{AgreeAll, CanJoin};
ghost use Rattle.tp_replay.specs.Held.{has};
ghost use Rattle.tp_replay.specs.NodesInside.{AreLive};
ghost use Rattle.tp_replay.specs.Joining.{AreBefore, HoldsFrom, Precedes};

use crate::pieces::apart::Apart;
use crate::pieces::copies::copy_lines;
use crate::pieces::host_part::HostPart;
use crate::pieces::net_part::NetPart;
use crate::pieces::nodes_part::NodesPart;
use std::alloc::{AllocError, Global};
use tp_net::Lines;

/// Gives the host's ports, lines and wires, without a node. Other lines are empty.
fn host_apart(alloc: Global, host: HostPart) -> Result<Apart, AllocError>
    ensures { IfOk result (λ apart. (t : Network NodeState) → Agrees (has host) t host.network → HoldsFrom t (length t.nodes) apart) }
{
    let HostPart {
        nodes,
        ports,
        lanes,
    } = host;
    let count = lanes.lines.count();
    let mut lines = Lines::new(alloc, count)?;
    copy_lines(&lanes.lines, &mut lines, 4 * nodes, count);
    Ok(Apart {
        wires: lanes.wires,
        nodes: Vec::new(alloc),
        lines,
        ports,
    })
}

/// Puts a run of nodes before those that are there.
fn with_run(apart: Apart, run: NodesPart) -> Result<Apart, AllocError>
    requires { (t : Network NodeState) × Precedes t run apart }
    ensures { IfOk result (λ now. (t : Network NodeState) → Precedes t run apart → HoldsFrom t run.first now) }
{
    let Apart {
        wires,
        nodes: mut behind,
        mut lines,
        ports,
    } = apart;
    let NodesPart {
        before,
        mut nodes,
        lanes,
        ..
    } = run;
    copy_lines(
        &lanes.lines,
        &mut lines,
        4 * before,
        4 * (before + nodes.len()),
    );
    nodes.append(&mut behind)?;
    Ok(Apart {
        wires,
        nodes,
        lines,
        ports,
    })
}

/// Puts the network's runs of nodes together, if the host's ports and lines are there.
fn with_runs(apart: Apart, runs: Vec<NetPart>) -> Result<Apart, AllocError>
    requires { (t : Network NodeState) × AreBefore t runs.items apart }
    ensures { IfOk result (λ now. (t : Network NodeState) → AreBefore t runs.items apart → HoldsFrom t 0 now) }
{
    let mut apart = apart;
    let mut runs = runs;
    while let Some(part) = runs.pop() {
        match part {
            NetPart::Nodes(run) => {
                run.known();
                apart = with_run(apart, run)?;
            }
            NetPart::Host(host) => {
                host.known();
                unreachable!()
            }
        }
    }
    Ok(apart)
}

/// Joins parts that each have their own as one network has it, to that network. `AllocError` if memory is out.
pub fn joined(alloc: Global, parts: Vec<NetPart>) -> Result<Apart, AllocError>
    requires { CanJoin parts.items }
    ensures is { IfOk result (λ apart. (t : Network NodeState) → AgreeAll parts.items t → network_apart apart ≡ t) }
    ensures live { IfOk result (λ apart. AreLive apart.nodes.items) }
{
    let mut parts = parts;
    let apart = match parts.pop() {
        Some(NetPart::Host(host)) => host_apart(alloc, host)?,
        Some(NetPart::Nodes(run)) => {
            run.known();
            unreachable!()
        }
        None => unreachable!(),
    };
    with_runs(apart, parts)
}
