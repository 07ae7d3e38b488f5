//! Places dealt to the four cells of a row.

ghost use Rattle.std.specs.Prelude.{OnOk};
ghost use Rattle.tp_shared.specs.Hands.{HasPlace, IsEmptyHand};

use crate::nodes::cells::ROW;
use crate::nodes::place::Place;
use std::alloc::{AllocError, Global};

/// The places of each cell of a row.
#[derive(Drop)]
pub struct Hand {
    pub(crate) places0: Vec<Place>,
    pub(crate) places1: Vec<Place>,
    pub(crate) places2: Vec<Place>,
    pub(crate) places3: Vec<Place>,
}

impl Hand {
    pub(crate) fn new(alloc: Global) -> Hand
        ensures { IsEmptyHand result }
    {
        Hand {
            places0: Vec::new(alloc),
            places1: Vec::new(alloc),
            places2: Vec::new(alloc),
            places3: Vec::new(alloc),
        }
    }

    /// Puts the place of the node `index` of this row after the others of its cell. `AllocError` if memory is out.
    pub(crate) fn push(&mut self, index: usize, place: Place) -> Result<(), AllocError>
        ensures { OnOk result (HasPlace index place self.old self.new) }
    {
        match index % ROW {
            0 => self.places0.push(place)?,
            1 => self.places1.push(place)?,
            2 => self.places2.push(place)?,
            _ => self.places3.push(place)?,
        }
        Ok(())
    }
}
