//! The parts of a network, each replayed by a thread of its own. They are runs of neighbouring nodes, and the host with its ports, each
//! with the lines as it has them.

pub(crate) mod apart;
pub(crate) mod copies;
pub(crate) mod host_part;
pub(crate) mod joins;
pub(crate) mod lanes;
pub(crate) mod neighbours;
pub(crate) mod net_part;
pub(crate) mod nodes_part;
pub(crate) mod outcome;
pub(crate) mod part;
pub(crate) mod places;
pub(crate) mod play;
pub(crate) mod splits;
pub(crate) mod stops;
pub(crate) mod turns;
