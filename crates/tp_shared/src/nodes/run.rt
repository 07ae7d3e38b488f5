//! Runs of nodes, while the book's lock isn't held.

ghost use Rattle.std.specs.Prelude.{◌≡◌, ◌≤◌, Some};
ghost use Rattle.tp_shared.specs.Lower.{IsNodeOfBytes, steps, t414, node_ranges, kept_behind_steps, LacksFrames, memory_kept, IsWhy};
ghost use Rattle.tp_shared.specs.Seals.{IsInTurn};

use crate::nodes::place::Place;
use tp_law_machine::nodes_stay_nodes;
use tp_node::Runs;
use tp_turn::{Stretch, run_node};

impl Place {
    /// Lets the node run for at most `quantum` steps while a turn of it is open. Its key still shows what it was.
    pub(crate) fn run(&mut self, runs: &mut Runs, quantum: u16) -> Stretch
        requires turn { IsInTurn self.old }
        ensures key { self.new.key ≡ self.old.key }
        ensures steps { steps t414 result.ran.count self.old.node.live ≡ Some (self.new.node.live, result.sent.items) }
        ensures asked { result.ran.max ≡ quantum }
        ensures why { IsWhy result.ran.why quantum result.ran.count (LacksFrames (memory_kept self.new.node) (node_ranges self.new.node.live)) self.new.node.live }
        ensures shared { memory_kept self.new.node ≡ kept_behind_steps result.ran.count self.old.node.live (memory_kept self.old.node) }
        ensures few { result.ran.count ≤ quantum }
        ensures image { IsNodeOfBytes self.new.node.live }
        ensures kept { self.new.node.frozen ≡ self.old.node.frozen }
    {
        nodes_stay_nodes();
        run_node(&mut self.node, runs, quantum)
    }
}
