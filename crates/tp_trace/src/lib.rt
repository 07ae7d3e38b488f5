//! The steps of a node, looked at one by one.
#![tactic(auto)]

mod act;
mod fields;
mod hearing;
mod lines;
mod looking;
mod names;
mod others;
mod stepping;

pub use act::Act;
pub use fields::{byte_in, cpu_in, half_in, word_in};
pub use hearing::{Heard, trace_take};
pub use lines::{push_step, push_stop, push_take};
pub use looking::{cpu_now, instruction_at, memory_of};
pub use names::{fault_name, state_name};
pub use others::{Linked, come};
pub use stepping::{Seen, trace_step};
