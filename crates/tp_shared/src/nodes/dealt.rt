//! Places dealt to the cells.

ghost use Rattle.std.specs.Prelude.{OnOk};
ghost use Rattle.tp_shared.specs.Hands.{IsEmptyHand, IsRowWith};

use crate::nodes::cells::{CELLS, ROW};
use crate::nodes::hand::Hand;
use crate::nodes::place::Place;
use std::alloc::{AllocError, Global};

/// The places of each cell, row by row.
#[derive(Drop)]
pub struct Dealt {
    pub(crate) row0: Hand,
    pub(crate) row1: Hand,
    pub(crate) row2: Hand,
    pub(crate) row3: Hand,
}

impl Dealt {
    pub(crate) fn new(alloc: Global) -> Dealt
        ensures zeroth { IsEmptyHand result.row0 }
        ensures first { IsEmptyHand result.row1 }
        ensures second { IsEmptyHand result.row2 }
        ensures third { IsEmptyHand result.row3 }
    {
        Dealt {
            row0: Hand::new(alloc),
            row1: Hand::new(alloc),
            row2: Hand::new(alloc),
            row3: Hand::new(alloc),
        }
    }

    /// Puts the place of the node `index` after the others of its cell. `AllocError` if memory is out.
    pub(crate) fn push(&mut self, index: usize, place: Place) -> Result<(), AllocError>
        ensures zeroth { OnOk result (IsRowWith 0 index place self.old.row0 self.new.row0) }
        ensures first { OnOk result (IsRowWith 1 index place self.old.row1 self.new.row1) }
        ensures second { OnOk result (IsRowWith 2 index place self.old.row2 self.new.row2) }
        ensures third { OnOk result (IsRowWith 3 index place self.old.row3 self.new.row3) }
    {
        match index % CELLS / ROW {
            0 => self.row0.push(index, place),
            1 => self.row1.push(index, place),
            2 => self.row2.push(index, place),
            _ => self.row3.push(index, place),
        }
    }
}
