//! A run of neighbouring nodes.

ghost use Rattle.std.specs.Prelude.{◌≡◌, ◌≤◌, ℕ, [], ◌∷◌, Some, length};
ghost use Rattle.tp_replay.specs.Lower.{Run, Take, MAX_NODES, Link, receiver, sends};
ghost use Rattle.tp_replay.specs.Counts.{most_entries};
ghost use Rattle.tp_replay.specs.Held.{has};
ghost use Rattle.tp_replay.specs.Behind.{Applies, DoesRest, TakesOff, TakesTokens};

use crate::Part;
use crate::pieces::lanes::Lanes;
use crate::pieces::places::{link_at, place};
use crate::run::is_count;
use arrayvec::ArrayVec;
use std::marker::Model;
use tp_book::tokens_of;
use tp_law_machine::carries_byte;
use tp_model::{Entry, Token};
use tp_net::link_line;
use tp_node::{NoFrame, Node, Runs};

/// Nodes with neighbouring numbers, and the lines as they have them: what each had at first, and what these nodes sent.
#[derive(Drop)]
pub struct NodesPart {
    /// How many nodes the network has before these, and after them.
    pub(crate) before: usize,
    pub(crate) behind: usize,
    pub(crate) nodes: Vec<Node>,
    pub(crate) ports: usize,
    pub(crate) lanes: Lanes,
    /// What the thread that replays them keeps of instructions.
    pub(crate) runs: Runs,
}

impl Model for NodesPart {
    ghost use Rattle.tp_replay.specs.Held.{HeldPart};

    ghost Value = { HeldPart };

    ghost use Rattle.tp_replay.specs.NodesInside.{nodes_held, IsNodesInside};

    ghost view = { nodes_held };

    ghost invariant = { IsNodesInside };
}

impl NodesPart {
    /// Proves that there is a number past the part's last process. It does nothing.
    pub(crate) fn known(&self)
        ensures { (past : ℕ) × (self.now.past ≡ Some past) }
    {
        let _before = self.before;
    }

    /// Goes on with an entry of any process, and answers whether it could. After `false` nothing is known of the part.
    pub(crate) fn go_on(&mut self, entry: &Entry) -> bool
        ensures { Applies self.old entry.now result self.new }
    {
        if !self.take_off(entry) {
            return false;
        }
        self.act(entry)
    }

    /// Gives the number of the first of them.
    pub(crate) fn first(&self) -> u8
        ensures { result ≡ self.now.first }
    {
        self.before as u8
    }

    /// Whether one of these nodes sends the line.
    fn sends(&self, line: usize) -> bool
        ensures { result ≡ sends (has self.now) (length self.now.network.nodes) line }
    {
        4 * self.before <= line && line < 4 * (self.before + self.nodes.len())
    }

    /// Counts the nodes of the network.
    pub(crate) fn count(&self) -> usize
        ensures value { result ≡ length self.now.network.nodes }
        ensures few { result ≤ MAX_NODES }
    {
        self.before + self.nodes.len() + self.behind
    }

    /// Takes a token off a line, if one of these nodes sent it. Answers whether it is at the front.
    pub(crate) fn take_front(&mut self, line: usize, token: Token) -> bool
        ensures { TakesTokens self.old ((line, token) ∷ []) result self.new }
    {
        if !self.sends(line) {
            return true;
        }
        self.lanes.take_off(line, token)
    }

    /// Takes off the tokens that the entry takes, each if one of these nodes sent it. Answers whether they are at the front.
    fn take_off(&mut self, entry: &Entry) -> bool
        ensures { TakesOff self.old entry.now result self.new }
    {
        match *entry {
            Entry::Take { line, token } => self.take_front(usize::from(line), token),
            Entry::Turn { node, takes, .. } => self.take_fronts(node, &tokens_of(&takes)),
            Entry::Run { .. } => true,
            Entry::HostIn { .. } => true,
            Entry::Confirm { .. } => true,
        }
    }

    /// Does what is left of the entry, if it is of one of these nodes.
    fn act(&mut self, entry: &Entry) -> bool
        ensures { DoesRest self.old entry.now result self.new }
    {
        let _lanes = &self.lanes;
        match *entry {
            Entry::Run { node, count } => self.run(node, count),
            Entry::Take { line, token } => {
                let Some((node, link)) = link_at(self.lanes.receiver(usize::from(line))) else {
                    return true;
                };
                self.receive(line, token, node, link)
            }
            Entry::HostIn { .. } => true,
            Entry::Confirm { .. } => true,
            Entry::Turn { node, takes, count } => self.turn(node, &takes, count),
        }
    }

    /// Has `node` make `count` steps, if it is one of these.
    fn run(&mut self, node: u8, count: u16) -> bool
        ensures { DoesRest self.old (Run node count) result self.new }
    {
        let Some(i) = place(self.before, self.nodes.len(), node) else {
            return true;
        };
        if !is_count(count) {
            return false;
        }
        let mut sent = ArrayVec::new();
        let ran = self.nodes[i].run(&mut self.runs, count, &mut sent);
        if ran.count() != count {
            return false;
        }
        self.lanes.send_all(link_line(usize::from(node), 0), &sent)
    }

    /// Lets the node that a line goes to take a token, if it is one of these, and answer on the line of that link.
    fn receive(&mut self, line: u16, token: Token, node: u8, link: u8) -> bool
        requires { receiver self.old.network.wires line ≡ Some (Link node link) }
        ensures { DoesRest self.old (Take line token) result self.new }
    {
        let Some(i) = place(self.before, self.nodes.len(), node) else {
            return true;
        };
        if !self.nodes[i].can_take(link, &token) {
            return false;
        }
        carries_byte(token);
        let answer = match self.nodes[i].take(link, token) {
            Ok(answer) => answer,
            Err(NoFrame) => unreachable!(),
        };
        self.lanes
            .send_some(link_line(usize::from(node), usize::from(link)), answer)
    }
}

impl Part for NodesPart {
    ghost has = { has };

    ghost network = { λ held. held.network };

    ghost room = { λ held. most_entries };

    fn first_node(&self) -> Option<u8> {
        if self.nodes.is_empty() {
            return None;
        }
        Some(self.first())
    }

    fn apply(&mut self, entry: &Entry) -> bool {
        self.go_on(entry)
    }
}
