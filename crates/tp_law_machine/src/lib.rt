//! What is true of a node's machine itself, whatever network it is in, and worked examples of the definitions.
#![tactic(auto)]

mod bytes;
pub mod examples;
mod machine;
mod spelling;

pub use bytes::{carries_byte, images_determine_nodes, numbers_determine_images};
pub use machine::{
    links_keep_flight, machine_has_four_links, machine_never_marks, nodes_stay_nodes,
};
pub use spelling::{entries_read_back, groups_read_back};
