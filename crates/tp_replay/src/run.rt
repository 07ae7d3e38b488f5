//! Runs of nodes.

ghost use Rattle.std.specs.Prelude.{◌≡◌, ◌<◌, ◌≤◌, ◌&&◌, IsTrue, length, nat_lt, nat_le, OnErr};
ghost use Rattle.tp_replay.specs.Lower.{MAX_STEPS, Run, next, t414};
ghost use Rattle.tp_replay.specs.Answers.{AppliesEntry, LeavesShort, RanUpTo};

use crate::fault::NotPossible;
use crate::network::FlatNetwork;
use arrayvec::ArrayVec;
use tp_book::send_all;
use tp_model::limits::MAX_STEPS;
use tp_net::link_line;
use tp_node::Runs;

impl FlatNetwork {
    /// Runs a node for `most` steps, or until it has no further step. Answers how many it made. `runs` is what the thread keeps of
    /// instructions.
    #[inline(always)]
    pub fn run_upto(&mut self, runs: &mut Runs, node: u8, most: u16) -> u16
        requires there { node < length self.old.nodes }
        requires bound { most ≤ MAX_STEPS }
        ensures ran { RanUpTo self.old node most result self.new }
    {
        let i = node as usize;
        let mut sent = ArrayVec::new();
        let ran = self.nodes[i].run(runs, most, &mut sent);
        send_all(&self.wires, &mut self.lines, link_line(i, 0), &sent);
        ran.count()
    }

    /// Has `node` make `count` steps. `NotPossible` if it can't make all of them; it has then made those that it can.
    #[inline(always)]
    pub(crate) fn run(&mut self, runs: &mut Runs, node: u8, count: u16) -> Result<(), NotPossible>
        ensures applies { AppliesEntry (next t414 self.old (Run node count)) result self.new }
        ensures err { OnErr result (LeavesShort self.old (Run node count) self.new) }
    {
        if node as usize >= self.nodes.len() {
            return Err(NotPossible);
        }
        if !is_count(count) {
            return Err(NotPossible);
        }
        if self.run_upto(runs, node, count) == count {
            Ok(())
        } else {
            Err(NotPossible)
        }
    }
}

/// Whether a run may have `count` steps.
pub(crate) fn is_count(count: u16) -> bool
    ensures value { result ≡ (nat_lt 0 count && nat_le count MAX_STEPS) }
    ensures some { IsTrue result → 0 < count }
    ensures few { IsTrue result → count ≤ MAX_STEPS }
{
    0 < count && count as usize <= MAX_STEPS
}
