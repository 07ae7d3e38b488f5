//! How much a turn takes, and how many entries it makes.

/// The most tokens that a turn takes from one line.
pub const TAKES: usize = 3;

/// The most entries that a node's turn makes: its takes from four lines, and a run.
pub const TURN_ENTRIES: usize = 4 * TAKES + 1;
