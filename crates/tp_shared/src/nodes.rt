//! The nodes under their locks: where they are, their turns, and how they record.

pub(crate) mod cell;
pub(crate) mod cell_pieces;
pub(crate) mod cells;
pub(crate) mod dealt;
pub(crate) mod hand;
pub(crate) mod node_turn;
pub(crate) mod place;
pub(crate) mod recorded;
pub(crate) mod recording;
pub(crate) mod resting;
pub(crate) mod row;
pub(crate) mod row_pieces;
pub(crate) mod run;
pub(crate) mod seal;
pub(crate) mod shown;
pub(crate) mod standing;
