//! Workers: the ready queue of processes, and their turns. Host sessions: what the host does at a port.
#![tactic(auto)]

mod confirming;
mod fault;
mod heed;
mod holds;
mod host_fault;
mod net;
mod nodes;
mod offers;
mod outputs;
mod seat;
mod session;
mod start;
mod turn;

pub use confirming::confirm;
pub use fault::TurnFault;
pub use heed::Heed;
pub use host_fault::{ConfirmFault, OfferFault, ShownFault};
pub use net::Net;
pub use nodes::nodes_of;
pub use offers::offer;
pub use outputs::shown;
pub use seat::Seat;
pub use session::Session;
pub use start::{MAX_SEATS, MAX_WORKERS};
pub use tp_shared::{Gate, NoGate};
pub use turn::Turn;
