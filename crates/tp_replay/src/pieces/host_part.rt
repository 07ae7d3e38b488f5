//! The host with its ports.

ghost use Rattle.std.specs.Prelude.{◌≡◌, [], ◌∷◌, None, Some, length};
ghost use Rattle.tp_replay.specs.Lower.{Confirm, HostIn, Take, receiver, sends};
ghost use Rattle.tp_model.specs.declared.wire.WireEnd.TheVariants.{Port};
ghost use Rattle.tp_replay.specs.Held.{has};
ghost use Rattle.tp_replay.specs.Behind.{Applies, DoesRest, TakesOff, TakesTokens};
ghost use Rattle.tp_replay.specs.Counts.{PortsCanCount, room_of};

use crate::Part;
use crate::front::{can_confirm, can_take, has_room};
use crate::pieces::lanes::Lanes;
use crate::pieces::places::is_there;
use std::marker::Model;
use tp_book::{HostPort, tokens_of};
use tp_model::{Entry, Token, WireEnd};
use tp_net::port_line;

/// The host with all ports, and the lines as it has them: what each had at first, and what the ports sent. Every process that doesn't exist
/// belongs to it, too.
#[derive(Drop)]
pub struct HostPart {
    /// How many nodes the network has.
    pub(crate) nodes: usize,
    pub(crate) ports: Vec<HostPort>,
    pub(crate) lanes: Lanes,
}

impl Model for HostPart {
    ghost use Rattle.tp_replay.specs.Held.{HeldPart};

    ghost Value = { HeldPart };

    ghost use Rattle.tp_replay.specs.HostInside.{host_held, IsHostInside};

    ghost view = { host_held };

    ghost invariant = { IsHostInside };
}

impl HostPart {
    /// Proves that the part's processes are all numbers from its first one on (`past` is `None`). It does nothing.
    pub(crate) fn known(&self)
        ensures { self.now.past ≡ None }
    {
        let _nodes = self.nodes;
    }

    /// Goes on with an entry of any process, and answers whether it could. After `false` nothing is known of the part.
    pub(crate) fn go_on(&mut self, entry: &Entry) -> bool
        requires { PortsCanCount self.old.network }
        ensures { Applies self.old entry.now result self.new }
    {
        if !self.take_off(entry) {
            return false;
        }
        self.act(entry)
    }

    /// Whether a port sends the line, or no process does.
    fn sends(&self, line: usize) -> bool
        ensures { result ≡ sends (has self.now) (length self.now.network.nodes) line }
    {
        4 * self.nodes <= line
    }

    /// Takes a token off a line, if a port sent it. Answers whether it is at the front.
    pub(crate) fn take_front(&mut self, line: usize, token: Token) -> bool
        ensures takes { TakesTokens self.old ((line, token) ∷ []) result self.new }
        ensures ports { self.new.network.ports ≡ self.old.network.ports }
    {
        if !self.sends(line) {
            return true;
        }
        self.lanes.take_off(line, token)
    }

    /// Takes off the tokens that the entry takes, each if a port sent it. Answers whether they are at the front.
    fn take_off(&mut self, entry: &Entry) -> bool
        ensures takes { TakesOff self.old entry.now result self.new }
        ensures ports { self.new.network.ports ≡ self.old.network.ports }
    {
        match *entry {
            Entry::Take { line, token } => self.take_front(usize::from(line), token),
            Entry::Turn { node, takes, .. } => self.take_fronts(node, &tokens_of(&takes)),
            Entry::Run { .. } => true,
            Entry::HostIn { .. } => true,
            Entry::Confirm { .. } => true,
        }
    }

    /// Does what is left of the entry, if it is the host's, or of a process that doesn't exist.
    fn act(&mut self, entry: &Entry) -> bool
        requires { PortsCanCount self.old.network }
        ensures { DoesRest self.old entry.now result self.new }
    {
        match *entry {
            Entry::Run { node, .. } => is_there(node, self.nodes),
            Entry::Turn { node, .. } => is_there(node, self.nodes),
            Entry::Take { line, token } => self.take(line, token),
            Entry::HostIn { port, byte } => self.hand_in(port, byte),
            Entry::Confirm { port, upto } => self.confirm(port, upto),
        }
    }

    /// Lets the host take a token, if it receives the line. A node that exists does so in its own part, and no other process can.
    fn take(&mut self, line: u16, token: Token) -> bool
        requires { PortsCanCount self.old.network }
        ensures { DoesRest self.old (Take line token) result self.new }
    {
        match self.lanes.receiver(usize::from(line)) {
            None => false,
            Some(WireEnd::Link(node, _)) => is_there(node, self.nodes),
            Some(WireEnd::Port(port)) => self.receive(line, token, port),
        }
    }

    /// Lets the port that a line goes to take a token, if it can, and answer on its own line.
    fn receive(&mut self, line: u16, token: Token, port: u8) -> bool
        requires counted { PortsCanCount self.old.network }
        requires goes { receiver self.old.network.wires line ≡ Some (Port port) }
        ensures { DoesRest self.old (Take line token) result self.new }
    {
        let i = port as usize;
        if i >= self.ports.len() {
            return false;
        }
        if !can_take(&self.ports[i], token) {
            return false;
        }
        let answer = self.ports[i].take(token, 0);
        self.lanes.send_some(port_line(self.nodes, i), answer)
    }

    /// Hands a byte from the host to a port.
    fn hand_in(&mut self, port: u8, byte: u8) -> bool
        ensures { DoesRest self.old (HostIn port byte) result self.new }
    {
        let i = port as usize;
        if i >= self.ports.len() {
            return false;
        }
        if !has_room(&self.ports[i]) {
            return false;
        }
        let token = self.ports[i].hand_in(byte);
        self.lanes.send_some(port_line(self.nodes, i), token)
    }

    /// Confirms a port's output up to a position.
    fn confirm(&mut self, port: u8, upto: u64) -> bool
        ensures { DoesRest self.old (Confirm port upto) result self.new }
    {
        let i = port as usize;
        if i >= self.ports.len() {
            return false;
        }
        if !can_confirm(&self.ports[i], upto) {
            return false;
        }
        self.ports[i].confirm(upto);
        true
    }
}

impl Part for HostPart {
    ghost has = { has };

    ghost network = { λ held. held.network };

    ghost room = { λ held. room_of held.network.ports };

    #[tactic(auto, using(crate::proofs::Among::no_node))]
    fn first_node(&self) -> Option<u8> {
        let _nodes = self.nodes;
        None
    }

    fn apply(&mut self, entry: &Entry) -> bool {
        self.go_on(entry)
    }
}
