//! What a pass of the queue knows.
use crate::call::{Call, Claim};
use std::collections::LinkedList;

/// `knows`: the pass knows `count`, how many numbers there are, and `hands`, how many hands. `makes`: it is still making them. `claims` are
/// the hands of this pass, each with at most one number. `held` are the numbers that it holds, and `seen` all calls that it has seen, the
/// newest first. No value of it is made.
pub struct View {
    pub knows: bool,
    pub makes: bool,
    pub count: u64,
    pub hands: u64,
    pub claims: LinkedList<Claim>,
    pub held: LinkedList<u8>,
    pub seen: LinkedList<Call>,
}
