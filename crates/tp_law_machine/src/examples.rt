//! Worked examples: what the definitions say of a few cases, computed. They are laws too: each is the contract of a
//! function that does nothing.

pub mod instructions;
pub mod journal;
pub mod links;
pub mod networks;
pub mod openings;
pub mod processes;
pub mod topologies;
