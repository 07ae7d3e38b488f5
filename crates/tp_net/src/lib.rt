//! The network's shape, read from a text or made of its parts, and its lines.
//!
//! And entries of the journal and groups of them as bytes: one spelling an entry, and its readers.
#![tactic(auto)]

mod declarations;
mod ends;
pub mod entry;
mod fields;
mod group;
mod line;
mod numbered;
mod rules;
mod topology;
mod turns;
mod words;

pub use ends::{MAX_LINES, back, end_of, line_of, link_line, port_line, receiver};
pub use fields::is_in_range;
pub use group::{ENTRY_ROOM, Group, MAX_GROUP_BYTES, group_length, put_group_body, read_group};
pub use line::{LINE_TOKENS, Lines, is_marker};
pub use numbered::Numbered;
pub use topology::{Named, Topology};
