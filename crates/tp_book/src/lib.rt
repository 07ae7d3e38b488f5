//! The journal's book, the host's ports, and the cut that a running snapshot gathers.
#![tactic(auto)]

mod begins;
mod book;
mod clear;
mod commits;
mod cuts;
mod entries;
mod journal;
mod law;
mod open;
mod parts;
mod ports;
mod received;
mod refusal;
mod run;
mod send;
mod state;
mod take;
mod trace;
mod turn;
mod turns;

pub use begins::opened_books_begin;
pub use book::Book;
pub use cuts::cut::CutNetwork;
pub use cuts::markers::{mark_node, mark_ports};
pub use cuts::snap_cut::Cut;
pub use cuts::snapshots::Snapshots;
pub use entries::backlog::Copied;
pub use entries::note::Note;
pub use entries::room::groups_find_room;
pub use entries::tail::Tail;
pub use parts::NetParts;
pub use ports::fill::{lines_with, ports_with};
pub use ports::port::{HostPort, fresh_ports};
pub use ports::port_parts::{PortParts, all_parts, parts_of};
pub use ports::receipt::Receipt;
pub use received::{incoming, tokens_of};
pub use refusal::Refusal;
pub use send::{send_all, send_answer, send_some};
pub use state::NetState;
pub use tp_law_network::{cuts_hold, swaps_agree};
pub use tp_net::Numbered;
pub use trace::{Image, Trace};
