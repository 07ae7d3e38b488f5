//! What was done with the queue.
use std::collections::LinkedList;

/// A number left the queue at its front, or joined it after all others.
pub enum Step {
    Took(u8),
    Put(u8),
}

/// A step, and the number of the hand that made it. No value of it is made.
pub struct Call {
    pub by: u64,
    pub step: Step,
}

/// A hand's number, which no other hand has, and all calls that it made, the newest first. No value of it is made.
pub struct Claim {
    pub who: u64,
    pub calls: LinkedList<Call>,
}
