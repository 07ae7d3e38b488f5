//! Points of a turn at which a test can hold it, and what is called there.

pub use tp_replay::{
    BACKLOG_COPIED, COMMITTED, Gate, NODE_LOCKED, NUMBER_TAKEN, NoGate, PAGE_COPIED, PIECE_BEGUN,
    RUN_DONE,
};
