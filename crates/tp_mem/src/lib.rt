//! A node's memory: live bytes, and the bytes as they were when it was last frozen.
//!
//! [`Mem`] is what the processor sees; [`Freeze`] adds what a snapshot sees. [`CowMemory`] is both, and copies a page before the first
//! write to it. [`FlatMemory`] is its slow twin, over two flat lists. The live bytes of both are [`LiveBytes`], which an [`Interpreter`] is lent
//! while no page is shared.
//!
//! [`FramePool`] has the frames of the copies. It hands them out by [`FrameId`]s, counts their owners and takes them back.
#![tactic(auto)]

mod access;
mod address;
mod bare;
mod copy_table;
mod cow;
mod fault;
mod flat;
mod id;
mod interpreter;
mod link;
mod live;
mod memory;
mod parting;
mod pool;
mod region;
mod slow;
mod touch;
mod write;

pub use address::FIRST_ADDRESS;
pub use cow::CowMemory;
pub use fault::{NoFrame, WriteFault};
pub use flat::FlatMemory;
pub use id::FrameId;
pub use interpreter::Interpreter;
pub use live::LiveBytes;
pub use memory::{Freeze, Mem};
pub use pool::{FramePool, PoolEmpty};
pub use region::Frame;
