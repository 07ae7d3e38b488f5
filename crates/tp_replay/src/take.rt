//! Tokens that are taken.

ghost use Rattle.std.specs.Prelude.{◌≡◌, ◌<◌, ℕ, Some, false, true, length, OnErr};
ghost use Rattle.tp_replay.specs.Lower.{Take, Data, Link, next, is_marker, is_first, on_line, receiver, t414};
ghost use Rattle.tp_model.specs.declared.wire.WireEnd.TheVariants.{Port};
ghost use Rattle.tp_replay.specs.Answers.{AppliesEntry};
ghost use Rattle.tp_replay.specs.Flat.{CanCount};

use crate::fault::NotPossible;
use crate::front::{can_take, stands_in_front};
use crate::network::FlatNetwork;
use tp_book::send_some;
use tp_law_machine::carries_byte;
use tp_model::{Token, WireEnd};
use tp_net::link_line;
use tp_node::NoFrame;

impl FlatNetwork {
    /// Lets the receiver of a line take the token at the front. `NotPossible` if it can't.
    #[inline(never)]
    pub(crate) fn take(&mut self, line: u16, token: Token) -> Result<(), NotPossible>
        requires counted { CanCount self.old }
        ensures applies { AppliesEntry (next t414 self.old (Take line token)) result self.new }
        ensures err { OnErr result (self.new ≡ self.old) }
    {
        let at = line as usize;
        if at >= self.wires.len() {
            return Err(NotPossible);
        }
        if !stands_in_front(self.lines.front(at), token) {
            return Err(NotPossible);
        }
        carries_byte(token);
        match self.wires[at] {
            None => Err(NotPossible),
            Some(WireEnd::Link(node, link)) => {
                self.take_at_node(at, token, node, link);
                Ok(())
            }
            Some(WireEnd::Port(port)) => self.take_at_port(at, token, port),
        }
    }

    /// Lets the node that the line goes to take the token at the front, and answer on the line of that link.
    fn take_at_node(&mut self, line: usize, token: Token, node: u8, link: u8)
        requires goes { receiver self.old.wires line ≡ Some (Link node link) }
        requires front { is_first (on_line self.old.lines line) token ≡ true }
        requires plain { is_marker token ≡ false }
        requires byte { (byte : ℕ) → token ≡ Data byte → byte < 256 }
        ensures { next t414 self.old (Take line token) ≡ Some self.new }
    {
        let i = node as usize;
        let answer = match self.nodes[i].take(link, token) {
            Ok(answer) => answer,
            Err(NoFrame) => unreachable!(),
        };
        self.lines.pop(line);
        let reply = link_line(i, usize::from(link));
        send_some(&self.wires, &mut self.lines, reply, answer);
    }

    /// Lets the port that the line goes to take the token at the front, and answer on its own line. `NotPossible` if it can't.
    fn take_at_port(&mut self, line: usize, token: Token, port: u8) -> Result<(), NotPossible>
        requires counted { CanCount self.old }
        requires goes { receiver self.old.wires line ≡ Some (Port port) }
        requires front { is_first (on_line self.old.lines line) token ≡ true }
        requires byte { (byte : ℕ) → token ≡ Data byte → byte < 256 }
        ensures applies { AppliesEntry (next t414 self.old (Take line token)) result self.new }
        ensures err { OnErr result (self.new ≡ self.old) }
    {
        let i = port as usize;
        let back = self.port_line(i);
        if i >= self.ports.len() {
            return Err(NotPossible);
        }
        if !can_take(&self.ports[i], token) {
            return Err(NotPossible);
        }
        let answer = self.ports[i].take(token, 0);
        self.lines.pop(line);
        send_some(&self.wires, &mut self.lines, back, answer);
        Ok(())
    }
}
