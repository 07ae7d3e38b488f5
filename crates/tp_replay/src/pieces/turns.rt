//! A turn: the tokens that its node takes, and then its steps.

ghost use Rattle.std.specs.Prelude.{◌≡◌, ◌<◌, ◌≤◌, ◌+◌, ◌^◌, ◌++◌, ◌&&◌, [], ◌∷◌, MatchBool, MatchOption, Option, Some, None, length, nat_lt, nat_le, true, false};
ghost use Rattle.tp_replay.specs.Lower.{Turn, MAX_STEPS, Token, has_wire, receiver, sent, on_link, t414, took, by_line, comes_in, incoming, is_link, received, took_all, turned, from_line};
ghost use Rattle.tp_replay.specs.Behind.{DoesRest, TakesTokens};
ghost use Rattle.tp_replay.specs.NodesInside.{IsLive};
ghost use Rattle.tp_replay.specs.Lanes.{Overfills, SameLanes};

use crate::pieces::host_part::HostPart;
use crate::pieces::lanes::Lanes;
use crate::pieces::nodes_part::NodesPart;
use crate::pieces::places::place;
use crate::received::is_link;
use arrayvec::ArrayVec;
use tp_book::{incoming, tokens_of};
use tp_law_machine::carries_byte;
use tp_model::limits::MAX_STEPS;
use tp_model::{Received, Token};
use tp_net::link_line;
use tp_node::{NoFrame, Node, Runs};

/// What a node sent in a turn.
#[derive(Drop)]
pub(crate) struct Sent {
    /// For the tokens that it took, and in its steps.
    pub(crate) for_tokens: ArrayVec<(u8, Token), 8>,
    pub(crate) in_steps: ArrayVec<(u8, Token), 8>,
}

/// Has a node take a token, if it can, and appends its answer to `out`. Answers whether it could.
fn take_one(node: &mut Node, link: u8, token: Token, out: &mut ArrayVec<(u8, Token), 8>) -> bool
    requires live { IsLive node.old }
    requires room { length out.old.items < 8 }
    ensures live { IsLive node.new }
    ensures takes { MatchBool result ((answer : Option Token) × (took node.old.live link token ≡ Some (node.new.live, on_link link answer)) × (out.new.items ≡ out.old.items ++ on_link link answer))
        (took node.old.live link token ≡ None) }
{
    if !node.can_take(link, &token) {
        return false;
    }
    carries_byte(token);
    match node.take(link, token) {
        Ok(Some(answer)) => out.push((link, answer)),
        Ok(None) => {}
        Err(NoFrame) => unreachable!(),
    }
    true
}

/// Has a node take tokens in order, each with its link, if it can, and puts its answers into `out`. Answers whether it could take all.
fn take_all(node: &mut Node, tokens: &[(u8, Token)], out: &mut ArrayVec<(u8, Token), 8>) -> bool
    requires live { IsLive node.old }
    requires few { length tokens.now ≤ 8 }
    requires empty { out.old.items ≡ [] }
    ensures live { IsLive node.new }
    ensures takes { MatchBool result (took_all t414 tokens.now node.old.live ≡ Some (node.new.live, out.new.items)) (took_all t414 tokens.now node.old.live ≡ None) }
{
    for m in tokens {
        if !take_one(node, m.0, m.1, out) {
            return false;
        }
    }
    true
}

/// Has a node take tokens and then make `count` steps; `None` if it can't do all of that.
fn make_turn(node: &mut Node, runs: &mut Runs, tokens: &[(u8, Token)], count: u16) -> Option<Sent>
    requires live { IsLive node.old }
    requires few { length tokens.now ≤ 8 }
    ensures live { IsLive node.new }
    ensures turns { MatchOption result (turned t414 tokens.now count node.old.live ≡ None)
        (λ s. turned t414 tokens.now count node.old.live ≡ Some (node.new.live, s.for_tokens.items ++ s.in_steps.items)) }
{
    let mut for_tokens = ArrayVec::new();
    if !take_all(node, tokens, &mut for_tokens) {
        return None;
    }
    let mut in_steps = ArrayVec::new();
    let ran = node.run(runs, count, &mut in_steps);
    if ran.count() != count {
        return None;
    }
    Some(Sent {
        for_tokens,
        in_steps,
    })
}

impl Lanes {
    /// Gives the line that comes in on a link of a node; line 0 if the link has no wire.
    pub(crate) fn incoming(&self, nodes: usize, node: u8, link: u8) -> usize
        requires { nodes ≤ 2 ^ 32 }
        ensures { result ≡ incoming self.now.wires nodes node link }
    {
        incoming(&self.wires, nodes, usize::from(node), usize::from(link))
    }

    /// Whether each token is on a line that its link receives.
    fn comes_in(&self, nodes: usize, node: u8, tokens: &[(u8, Token)]) -> bool
        requires { nodes ≤ 2 ^ 32 }
        ensures { result ≡ comes_in self.now.wires nodes node tokens.now }
    {
        for m in tokens {
            let line = self.incoming(nodes, node, m.0);
            if !is_link(self.receiver(line), usize::from(node), usize::from(m.0)) {
                return false;
            }
        }
        true
    }

    /// Whether a turn of a node may take these tokens and have `count` steps: it takes at least one, and all of them come in to the node.
    fn is_turn(&self, nodes: usize, node: u8, tokens: &[(u8, Token)], count: u16) -> bool
        requires { nodes ≤ 2 ^ 32 }
        ensures { result ≡ (comes_in self.now.wires nodes node tokens.now && (nat_lt 0 (length tokens.now) && nat_le count MAX_STEPS)) }
    {
        if !self.comes_in(nodes, node, tokens) {
            return false;
        }
        if tokens.is_empty() {
            return false;
        }
        count as usize <= MAX_STEPS
    }

    /// Sends what a node sent in a turn, from the node's first line on. Answers whether all have room.
    fn send_turn(&mut self, first: usize, made: &Sent) -> bool
        requires { first ≤ 1024 }
        ensures same { SameLanes self.old self.new }
        ensures sends { MatchBool result (self.new.lines ≡ sent (has_wire self.old.wires) self.old.lines (from_line first (made.now.for_tokens.items ++ made.now.in_steps.items)))
            (Overfills (has_wire self.old.wires) self.old.lines (from_line first (made.now.for_tokens.items ++ made.now.in_steps.items))) }
    {
        if !self.send_all(first, &made.for_tokens) {
            return false;
        }
        self.send_all(first, &made.in_steps)
    }
}

impl NodesPart {
    /// Gives the line that comes in on a link of a node of the network.
    fn incoming(&self, node: u8, link: u8) -> usize
        ensures { result ≡ incoming self.now.network.wires (length self.now.network.nodes) node link }
    {
        self.lanes.incoming(self.count(), node, link)
    }

    /// Takes off tokens that come in on links of a node, each if one of these nodes sent it, before the node takes any.
    pub(crate) fn take_fronts(&mut self, node: u8, tokens: &[(u8, Token)]) -> bool
        ensures { TakesTokens self.old (by_line self.old.network.wires (length self.old.network.nodes) node tokens.now) result self.new }
    {
        for m in tokens {
            let line = self.incoming(node, m.0);
            if !self.take_front(line, m.1) {
                return false;
            }
        }
        true
    }

    /// Has `node` take what the turn takes and then make `count` steps, if it is one of these.
    pub(crate) fn turn(&mut self, node: u8, takes: &[Received; 4], count: u16) -> bool
        ensures { DoesRest self.old (Turn node takes.now count) result self.new }
    {
        let nodes = self.count();
        let Some(i) = place(self.before, self.nodes.len(), node) else {
            return true;
        };
        let tokens = tokens_of(takes);
        if !self.lanes.is_turn(nodes, node, &tokens, count) {
            return false;
        }
        let Some(sent) = make_turn(&mut self.nodes[i], &mut self.runs, &tokens, count) else {
            return false;
        };
        self.lanes.send_turn(link_line(usize::from(node), 0), &sent)
    }
}

impl HostPart {
    /// Gives the line that comes in on a link of a node of the network.
    fn incoming(&self, node: u8, link: u8) -> usize
        ensures { result ≡ incoming self.now.network.wires (length self.now.network.nodes) node link }
    {
        self.lanes.incoming(self.nodes, node, link)
    }

    /// Takes off tokens that come in on links of a node, each if a port sent it.
    pub(crate) fn take_fronts(&mut self, node: u8, tokens: &[(u8, Token)]) -> bool
        ensures takes { TakesTokens self.old (by_line self.old.network.wires (length self.old.network.nodes) node tokens.now) result self.new }
        ensures ports { self.new.network.ports ≡ self.old.network.ports }
    {
        for m in tokens {
            let line = self.incoming(node, m.0);
            if !self.take_front(line, m.1) {
                return false;
            }
        }
        true
    }
}
