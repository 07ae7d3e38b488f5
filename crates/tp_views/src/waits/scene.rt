//! What of a network's nodes, lines and ports says who waits for whom.

ghost use Rattle.std.specs.Prelude.{◌≡◌, ◌≤◌, [], IfOk, length, map, slice_get};
ghost use Rattle.tp_model.specs.declared.limits.TheConstants.{MAX_HELD, MAX_NODES};
ghost use Rattle.tp_views.specs.Scene.{doing_of, is_halted, is_resting, node_seen, port_held, scene_of, seen_in};

use crate::waits::since::NodeSince;
use std::alloc::{AllocError, Global};
use tp_book::HostPort;
use tp_model::limits::MAX_HELD;
use tp_model::{Fault, Token, WireEnd};
use tp_net::Lines;
use tp_node::{Node, Waiter};
use tp_replay::FlatNetwork;

/// What a node does.
#[derive(Clone, Copy)]
pub enum Doing {
    /// It halted at the instruction at this address.
    Halted { fault: Fault, at: u32 },
    /// A process of it runs, is ready to, or was interrupted.
    Runs,
    /// No process of it does anything until a token comes.
    Rests,
}

/// What a node does, and who waits at the output ends and at the input ends of links 0 to 3.
#[derive(Clone, Copy)]
pub struct NodeSeen {
    pub doing: Doing,
    pub senders: [Option<Waiter>; 4],
    pub listeners: [Option<Waiter>; 4],
}

/// Whether a port has input that no node has taken, and whether it has no room for another byte of output.
#[derive(Clone, Copy)]
pub struct PortHeld {
    pub has_input: bool,
    pub is_full: bool,
}

/// A network as far as it says who waits for whom: its wires, its nodes, the token that comes next on each line, and its ports. And since when
/// processes wait at the links of each node, as far as that is known.
#[derive(Drop)]
pub struct Scene {
    pub wires: Vec<Option<WireEnd>>,
    pub nodes: Vec<NodeSeen>,
    pub fronts: Vec<Option<Token>>,
    pub ports: Vec<PortHeld>,
    pub since: Vec<NodeSince>,
}

/// Whether a node has halted.
pub(crate) fn is_halted(doing: Doing) -> bool
    ensures { result ≡ is_halted doing }
{
    match doing {
        Doing::Halted { .. } => true,
        Doing::Runs | Doing::Rests => false,
    }
}

/// Whether no process of a node does anything until a token comes.
pub(crate) fn is_resting(doing: Doing) -> bool
    ensures { result ≡ is_resting doing }
{
    match doing {
        Doing::Rests => true,
        Doing::Runs | Doing::Halted { .. } => false,
    }
}

fn doing_of(node: &Node) -> Doing
    ensures { result ≡ doing_of node.now.live }
{
    match node.halt() {
        Some(fault) => Doing::Halted {
            fault,
            at: node.iptr(),
        },
        None => {
            if node.has_nobody() {
                Doing::Rests
            } else {
                Doing::Runs
            }
        }
    }
}

fn node_seen(node: &Node) -> NodeSeen
    ensures { result ≡ node_seen node.now.live }
{
    NodeSeen {
        doing: doing_of(node),
        senders: [
            node.sender(0),
            node.sender(1),
            node.sender(2),
            node.sender(3),
        ],
        listeners: [
            node.listener(0),
            node.listener(1),
            node.listener(2),
            node.listener(3),
        ],
    }
}

fn port_held(port: &HostPort) -> PortHeld
    ensures { result ≡ port_held port.now.port }
{
    PortHeld {
        has_input: port.pending().len() > 0,
        is_full: port.outputs().len() >= MAX_HELD,
    }
}

fn nodes_seen(alloc: Global, nodes: &[Node]) -> Result<Vec<NodeSeen>, AllocError>
    ensures { IfOk result (λ seen. seen.items ≡ map (λ node. node_seen node.live) nodes.now) }
{
    let mut seen = Vec::with_capacity(alloc, nodes.len())?;
    for node in nodes {
        seen.push(node_seen(node))?;
    }
    Ok(seen)
}

fn ports_held(alloc: Global, ports: &[HostPort]) -> Result<Vec<PortHeld>, AllocError>
    ensures { IfOk result (λ held. held.items ≡ map (λ port. port_held port.port) ports.now) }
{
    let mut held = Vec::with_capacity(alloc, ports.len())?;
    for port in ports {
        held.push(port_held(port))?;
    }
    Ok(held)
}

/// The token that comes next on each line.
fn fronts_of(alloc: Global, lines: &Lines) -> Result<Vec<Option<Token>>, AllocError>
    ensures { IfOk result (λ fronts. fronts.items ≡ map (λ line. slice_get line 0) lines.now) }
{
    let mut fronts = Vec::with_capacity(alloc, lines.count())?;
    for line in 0..lines.count() {
        fronts.push(lines.front(line))?;
    }
    Ok(fronts)
}

/// What a network with these wires says of who waits for whom. Since when isn't known.
pub(crate) fn scene_of(
    alloc: Global,
    wires: &[Option<WireEnd>],
    network: &FlatNetwork,
) -> Result<Scene, AllocError>
    ensures is { IfOk result (λ scene. seen_in scene ≡ scene_of wires.now network.now []) }
    ensures few { IfOk result (λ scene. length scene.nodes.items ≤ MAX_NODES) }
{
    network.known();
    Ok(Scene {
        wires: Vec::from_slice(alloc, wires)?,
        nodes: nodes_seen(alloc, network.nodes())?,
        fronts: fronts_of(alloc, network.lines())?,
        ports: ports_held(alloc, network.ports())?,
        since: Vec::new(alloc),
    })
}
