//! What is left to do in the network as it is.

ghost use Rattle.std.specs.Prelude.{◌≡◌, ◌<◌, ◌%◌, true, if◌then◌else◌, length};
ghost use Rattle.tp_shared.specs.Lower.{world_of, plain_network};
ghost use Rattle.tp_shared.specs.Resting.{HasHalted, IsRestAt, rest_in};
ghost use Rattle.tp_shared.specs.Rows.{IsInRow};
ghost use Rattle.tp_shared.specs.declared.nodes.cells.TheConstants.{CELLS};

use crate::book::locked::Locked;
use crate::naming::Naming;
use crate::nodes::cell::Cell;
use crate::nodes::cells::{CELLS, ROW, in_cell, in_row};
use crate::nodes::row::Row;
use crate::shared::Shared;
use crate::soon::lock_soon;
use std::sync::Wait;
use tp_node::Rest;

impl<const I: usize, J: Naming> Cell<I, J> {
    /// Tells what is left to do for the node `number` of this cell by itself.
    pub(crate) fn rest(&mut self, held: &mut Locked<J>, number: u8) -> Rest
        requires there { number < length J.start.nodes }
        requires here { number % CELLS ≡ I }
        ensures same { held.new ≡ held.old }
        ensures rest { IsRestAt held.old.book number result }
    {
        let place = &mut self.places[number as usize / CELLS];
        held.audit_frozen(place, number);
        place.node.rest()
    }
}

impl<const A: usize, const B: usize, const C: usize, const D: usize, J: Naming> Row<A, B, C, D, J> {
    /// Tells what is left to do for the node `number` of this row by itself.
    pub(crate) fn rest<R: Wait>(&self, rt: &R, held: &mut Locked<J>, number: u8) -> Rest
        requires there { number < length J.start.nodes }
        requires here { IsInRow A B C D number }
        ensures same { held.new ≡ held.old }
        ensures rest { IsRestAt held.old.book number result }
    {
        in_cell!(self, number, cell => lock_soon(rt, cell).rest(held, number))
    }
}

/// Tells what is left to do in a network if nothing is left for any node by itself. Either all have halted, or the lines are clear, or
/// tokens are under way.
fn rest_of(have_halted: bool, is_clear: bool) -> Rest
    ensures { result ≡ (if have_halted then Rest.Halted else (if is_clear then Rest.Quiet else Rest.Busy)) }
{
    if have_halted {
        Rest::Halted
    } else if is_clear {
        Rest::Quiet
    } else {
        Rest::Busy
    }
}

impl<J: Naming> Shared<J> {
    /// Tells what is left to do for the node `number` by itself.
    fn rest_at<R: Wait>(&self, rt: &R, held: &mut Locked<J>, number: u8) -> Rest
        requires there { number < length J.start.nodes }
        ensures same { held.new ≡ held.old }
        ensures rest { IsRestAt held.old.book number result }
    {
        in_row!(self, number, row => row.rest(rt, held, number))
    }

    /// Tells exactly what is left to do in the network as it is. First, whether each node has halted. If not, whether no node has a step,
    /// and nothing is under way on a line. It changes nothing. The book's lock is held, and each node's is taken after it. Turns take a
    /// node's lock first; so call it only once no other thread makes turns.
    pub fn rest<R: Wait>(&self, rt: &R, held: &mut Locked<J>) -> Rest
        ensures same { held.new ≡ held.old }
        ensures rest { result ≡ rest_in (plain_network (world_of held.old.book).live) }
    {
        held.known();
        held.book().known();
        let mut have_halted = true;
        for number in 0..self.nodes() {
            match self.rest_at(rt, held, number) {
                Rest::Halted => {}
                Rest::Quiet => have_halted = false,
                Rest::Busy => return Rest::Busy,
            }
        }
        rest_of(have_halted, held.book().is_clear())
    }
    /// Whether a node has halted in the network as it is. It changes nothing, and takes locks as `rest` does.
    pub fn has_halted<R: Wait>(&self, rt: &R, held: &mut Locked<J>) -> bool
        ensures same { held.new ≡ held.old }
        ensures halted { result ≡ true → HasHalted (plain_network (world_of held.old.book).live) }
    {
        for number in 0..self.nodes() {
            if let Rest::Halted = self.rest_at(rt, held, number) {
                return true;
            }
        }
        false
    }
}
