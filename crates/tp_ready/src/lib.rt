//! The ready queue: the numbers of processes. Each is in the queue or with one holder. And the durable mark: one word, which one holder
//! raises and others load without a lock.
//!
//! And tokens: values without bytes, which only proofs see, and which carry a fact from under one lock to under another. A [`twin::Seal`] and a
//! [`twin::Key`] show one value in two places, and change only together: what two locks must agree on. A [`roll::Roll`] lists all that was ever
//! written, and [`slips::Slips`] of it show, entry by entry, what is in exactly one hand.
#![tactic(auto)]

mod answers;
mod call;
mod hand;
mod mark;
mod mark_view;
mod pass;
mod plays;
mod queue;
mod raiser;
pub mod roll;
mod rule;
pub mod slips;
mod turn;
pub mod twin;
mod view;

pub use answers::{Answer, Answers};
pub use call::{Call, Claim, Step};
pub use hand::Hand;
pub use mark::Mark;
pub use pass::Pass;
pub use queue::ReadyQueue;
pub use raiser::Raiser;
pub use turn::Turn;
