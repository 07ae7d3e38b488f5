//! Runs a device's network in threads, which is the program's main job.
#![tactic(auto)]

mod accounting;
mod aside;
mod beginning;
mod compacting;
mod fault;
mod flushing;
mod job;
mod offering;
mod opening;
mod outlet;
mod outset;
mod printing;
mod resting;
mod running;
mod serving;
mod watch;
mod working;

pub use compacting::{CompactFault, Compaction, compact};
pub use fault::RunFault;
pub use job::Job;
pub use outlet::{Outlet, OutletFault};
pub use running::run;
pub use tp_node::Rest;
pub use tp_work::MAX_WORKERS;
