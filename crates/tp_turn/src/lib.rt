//! Turns of a network, over a book and a node that are lent: a node records, takes what came in and runs; the host takes what came to its
//! ports. A node's turn is an entry for each token that it takes and one for its run, or one entry in all.
#![tactic(auto)]

mod front;
mod image;
mod law;
mod left;
mod lone;
mod markers;
mod opened;
mod over;
mod ports;
mod receiving;
mod settling;
mod stages;
mod take;
mod trial;
mod turns;
mod whole;

pub use image::{ONE_WIRE, TryFault, lone_node};
pub use law::{trials_have_one_output, tried_images_are_formatted};
pub use left::Left;
pub use opened::{Opened, commit_opened, open_in_form};
pub use over::close_all;
pub use ports::host_turn;
pub use receiving::Taken;
pub use settling::{record_asked, settle};
pub use stages::{Stretch, Turn, commit_turn, node_turn, open_turn, run_node};
pub use take::{TAKES, TURN_ENTRIES};
pub use trial::{Trial, try_output, try_standing};
pub use whole::{commit_whole, open_whole, whole_turn};
