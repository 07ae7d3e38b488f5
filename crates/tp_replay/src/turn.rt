//! Turns of nodes.

ghost use Rattle.std.specs.Prelude.{◌≡◌, ◌&&◌, length, nat_lt, nat_le, OnErr};
ghost use Rattle.tp_replay.specs.Lower.{MAX_STEPS, Turn, next, t414, by_link, IsFront};
ghost use Rattle.tp_replay.specs.Answers.{AppliesEntry, LeavesShort, TurnedUpTo};

use crate::fault::NotPossible;
use crate::network::FlatNetwork;
use crate::received::{are_there, take_all, take_off};
use arrayvec::ArrayVec;
use tp_book::{send_all, tokens_of};
use tp_model::Received;
use tp_model::limits::MAX_STEPS;
use tp_net::link_line;
use tp_node::Runs;

impl FlatNetwork {
    /// Has `node` take what came in on its links, and then make `count` steps. `NotPossible` if it can't; it may then have taken the tokens
    /// and made the steps that it can.
    #[inline(never)]
    pub(crate) fn turn(
        &mut self,
        runs: &mut Runs,
        node: u8,
        takes: &[Received; 4],
        count: u16,
    ) -> Result<(), NotPossible>
        ensures applies { AppliesEntry (next t414 self.old (Turn node takes.now count)) result self.new }
        ensures err { OnErr result (LeavesShort self.old (Turn node takes.now count) self.new) }
    {
        let i = node as usize;
        if i >= self.nodes.len() {
            return Err(NotPossible);
        }
        if !is_turn(takes, count) {
            return Err(NotPossible);
        }
        if !are_there(&self.wires, self.nodes.len(), &self.lines, i, takes) {
            return Err(NotPossible);
        }
        if self.turn_upto(runs, node, takes, count) == count {
            Ok(())
        } else {
            Err(NotPossible)
        }
    }

    /// Has `node` take what came in on its links, and then make `most` steps, or as many as it can. All tokens are off their lines before
    /// the node takes the first one, and it sends nothing before its last step. Answers how many steps it made.
    fn turn_upto(&mut self, runs: &mut Runs, node: u8, takes: &[Received; 4], most: u16) -> u16
        requires { IsFront self.old node takes.now most }
        ensures { TurnedUpTo self.old node takes.now most result self.new }
    {
        let i = node as usize;
        let tokens = tokens_of(takes);
        take_off(&self.wires, self.nodes.len(), &mut self.lines, i, &tokens);
        let mut answers = ArrayVec::new();
        let mut sent = ArrayVec::new();
        let at = &mut self.nodes[i];
        take_all(at, &tokens, &mut answers);
        let ran = at.run(runs, most, &mut sent);
        send_all(&self.wires, &mut self.lines, link_line(i, 0), &answers);
        send_all(&self.wires, &mut self.lines, link_line(i, 0), &sent);
        ran.count()
    }
}

/// Whether a turn may take this and have `count` steps.
fn is_turn(takes: &[Received; 4], count: u16) -> bool
    ensures { result ≡ (nat_lt 0 (length (by_link 0 takes.now)) && nat_le count MAX_STEPS) }
{
    !tokens_of(takes).is_empty() && count as usize <= MAX_STEPS
}
