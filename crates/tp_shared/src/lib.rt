//! What threads share: the book under one lock, the nodes under sixteen others, and the durable mark.
#![tactic(auto)]

mod audit;
mod book;
mod flusher;
pub mod gate;
mod host_key;
mod naming;
mod nodes;
mod parts;
mod seat;
mod shared;
mod soon;
mod whole;

pub use audit::gather;
pub use book::locked::Locked;
pub use book::look::Look;
pub use book::sights::Sights;
pub use flusher::tail::TailCopy;
pub use flusher::told::Told;
pub use gate::{Gate, NoGate};
pub use host_key::HostKey;
pub use naming::Naming;
pub use nodes::cell::Cell;
pub use nodes::dealt::Dealt;
pub use nodes::node_turn::NodeTurn;
pub use nodes::place::Place;
pub use nodes::recorded::Recorded;
pub use nodes::seal::NodeSeal;
pub use nodes::shown::Shown;
pub use parts::Parts;
pub use seat::Seat;
pub use shared::Shared;
