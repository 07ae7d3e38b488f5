//! Whether a node recorded.

use crate::book::sights::Sights;
use crate::naming::Naming;

/// Whether a node recorded, and the book as it was found and as it was left.
#[derive(Drop)]
pub struct Recorded<J: Naming> {
    pub done: bool,
    pub seen: Sights<J>,
}
