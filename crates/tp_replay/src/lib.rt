//! A network whose entries are replayed: in one thread, or by its parts, each in a thread of its own.
#![tactic(auto)]

mod apply;
mod fault;
mod front;
mod gate;
mod host;
mod image;
mod laws;
mod network;
mod parts;
mod pieces;
mod received;
mod replaying;
mod run;
mod take;
mod turn;

pub use fault::{NotPossible, ReplayFault, RowFault};
pub use gate::{
    BACKLOG_COPIED, COMMITTED, Gate, NODE_LOCKED, NUMBER_TAKEN, NoGate, PAGE_COPIED, PIECE_BEGUN,
    RUN_DONE,
};
pub use laws::{cuts_are_sound, entries_keep_flat, rows_are_history, rows_in_parts};
pub use network::FlatNetwork;
pub use pieces::apart::Apart;
pub use pieces::host_part::HostPart;
pub use pieces::joins::joined;
pub use pieces::neighbours::{Neighbours, dealt_pieces_cover, neighbours_of};
pub use pieces::net_part::NetPart;
pub use pieces::nodes_part::NodesPart;
pub use pieces::outcome::{Outcome, replay_apart};
pub use pieces::part::Part;
pub use pieces::play::{Played, play_all, play_whole};
pub use pieces::splits::split;
pub use pieces::stops::first_stop;
pub use replaying::Replay;
