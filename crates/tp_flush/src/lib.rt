//! The flusher: it copies what the book journalled, appends it to the store, and raises the durable mark.
#![tactic(auto)]

mod fault;
mod flushed;
mod flusher;
mod generation;
mod imaged;
mod laws;
mod places;
mod progress;
mod rights;
mod steps;
mod stored_mark;
mod topology;
mod turn;
mod unswitched;
mod whole;
mod worth;

pub use fault::FlushFault;
pub use flushed::Flushed;
pub use flusher::Flusher;
pub use imaged::Images;
pub use laws::{first_process_begins, next_process_begins};
pub use progress::Progress;
pub use steps::snapshot::Begun;
pub use topology::topology_of;
pub use turn::FLUSHER;
pub use unswitched::Unswitched;
pub use whole::Whole;
pub use worth::settle::stored_slips_are_recovered;
