//! What nodes do between their turns.

ghost use Rattle.std.specs.Prelude.{◌≡◌, ◌<◌, ◌%◌, ◌/◌, IfSome, length, slice_get};
ghost use Rattle.tp_node.specs.Standing.{standing};
ghost use Rattle.tp_shared.specs.declared.nodes.cells.TheConstants.{CELLS};
ghost use Rattle.tp_shared.specs.Rows.{IsInRow};

use crate::naming::Naming;
use crate::nodes::cell::Cell;
use crate::nodes::cells::{CELLS, ROW, in_cell, in_row};
use crate::nodes::row::Row;
use crate::shared::Shared;
use std::sync::Wait;
use tp_node::Standing;

impl<const I: usize, J: Naming> Cell<I, J> {
    /// Tells how the node `number` of this cell is standing.
    pub(crate) fn standing(&self, number: u8) -> Standing
        requires there { number < length J.start.nodes }
        requires here { number % CELLS ≡ I }
        ensures { IfSome (slice_get self.now (number / CELLS)) (λ place. result ≡ standing place.node.live) }
    {
        self.places[number as usize / CELLS].node.standing()
    }
}

impl<const A: usize, const B: usize, const C: usize, const D: usize, J: Naming> Row<A, B, C, D, J> {
    /// Tells how the node `number` of this row is standing.
    pub(crate) fn standing<R: Wait>(&self, rt: &R, number: u8) -> Standing
        requires there { number < length J.start.nodes }
        requires here { IsInRow A B C D number }
    {
        in_cell!(self, number, cell => cell.lock(rt).standing(number))
    }
}

impl<J: Naming> Shared<J> {
    /// Tells how the node `number` is standing between its turns.
    pub fn standing<R: Wait>(&self, rt: &R, number: u8) -> Standing
        requires there { number < length J.start.nodes }
    {
        in_row!(self, number, row => row.standing(rt, number))
    }
}
