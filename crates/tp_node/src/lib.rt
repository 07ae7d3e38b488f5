//! A node: its processor, its memory and the ends of its four links.
#![tactic(auto)]

mod arrival;
mod busy;
mod code;
mod ends;
mod fault;
mod first;
mod head;
mod idle;
mod image;
pub mod image_places;
mod input;
mod link_input;
mod link_output;
mod memory;
mod node;
mod output;
mod rest;
mod rules;
mod run;
mod standing;
mod step;
mod take;
mod transfer;
mod waiter;

pub use busy::LinkBusy;
pub use code::halt_byte;
pub use fault::{ImageFault, NoFrame};
pub use idle::has_idle_links;
pub use link_input::InEngine;
pub use link_output::OutEngine;
pub use node::Node;
pub use rest::Rest;
pub use run::{Ran, Why};
pub use standing::Standing;
pub use tp_cpu::Runs;
pub use waiter::{Deed, Waiter};
