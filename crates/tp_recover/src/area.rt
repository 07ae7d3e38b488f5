//! Reading an area up to its journal: the head, the choice between two, and the cut.

pub(crate) mod choice;
pub(crate) mod cut;
pub(crate) mod flights;
pub(crate) mod front;
pub(crate) mod head;
pub(crate) mod line;
pub(crate) mod node;
pub(crate) mod places;
pub(crate) mod port;
pub(crate) mod start;
pub(crate) mod taken;
