//! A network in one thread.

ghost use Rattle.std.specs.Prelude.{◌≡◌, ◌≤◌, ◌<◌, ◌+◌, ◌*◌, length, map, slice_get};
ghost use Rattle.tp_model.specs.Network.{on_line};
ghost use Rattle.tp_replay.specs.Flat.{IsFlat, AreThawed, network_flat};

use std::marker::Model;
use tp_book::HostPort;
use tp_model::{Token, WireEnd};
use tp_net::{Lines, port_line};
use tp_node::Node;

/// A network in one thread: its wires, nodes, lines and ports. No node is frozen.
#[derive(Drop)]
pub struct FlatNetwork {
    pub(crate) wires: Vec<Option<WireEnd>>,
    pub(crate) nodes: Vec<Node>,
    pub(crate) lines: Lines,
    pub(crate) ports: Vec<HostPort>,
}

impl Model for FlatNetwork {
    ghost use Rattle.tp_replay.specs.Lower.{NodeState, Network};

    ghost Value = { Network NodeState };

    ghost use Rattle.tp_replay.specs.Inside.{replay_state, IsInside};

    ghost view = { replay_state };

    ghost invariant = { IsInside };
}

impl FlatNetwork {
    /// Makes the network of its parts, which has to be sound and shaped.
    pub fn new(
        wires: Vec<Option<WireEnd>>,
        nodes: Vec<Node>,
        lines: Lines,
        ports: Vec<HostPort>,
    ) -> FlatNetwork
        requires flat { IsFlat (network_flat wires.items nodes.items lines ports.items) }
        requires thawed { AreThawed nodes.items }
        ensures { result ≡ network_flat wires.items nodes.items lines ports.items }
    {
        FlatNetwork {
            wires,
            nodes,
            lines,
            ports,
        }
    }

    /// Gives the wires, the nodes, the lines and the ports.
    pub fn into_fields(self) -> (Vec<Option<WireEnd>>, Vec<Node>, Lines, Vec<HostPort>)
        ensures is { network_flat result.0.items result.1.items result.2 result.3.items ≡ self }
        ensures flat { IsFlat self }
        ensures thawed { AreThawed result.1.items }
    {
        (self.wires, self.nodes, self.lines, self.ports)
    }

    /// What every flat network keeps. It does nothing.
    pub fn known(&self)
        ensures { IsFlat self.now }
    {
        let _lines = &self.lines;
    }

    /// Gives the nodes. None is frozen.
    pub fn nodes(&self) -> &[Node]
        ensures { map (λ node. node.live) result.now ≡ self.now.nodes }
    {
        self.nodes.as_slice()
    }

    /// Gives the lines.
    pub fn lines(&self) -> &Lines
        ensures { result.now ≡ self.now.lines }
    {
        &self.lines
    }

    /// Gives the token that comes next on a line; `None` if it is empty.
    pub fn front(&self, line: u16) -> Option<Token>
        requires { line < length self.now.lines }
        ensures { result ≡ slice_get (on_line self.now.lines line) 0 }
    {
        self.lines.front(line as usize)
    }

    /// Gives the ports.
    pub fn ports(&self) -> &[HostPort]
        ensures { map (λ port. port.port) result.now ≡ self.now.ports }
    {
        self.ports.as_slice()
    }

    /// Gives the line that a port sends.
    pub(crate) fn port_line(&self, port: usize) -> usize
        requires { port ≤ 1024 }
        ensures { result ≡ 4 * length self.now.nodes + port }
    {
        port_line(self.nodes.len(), port)
    }
}
