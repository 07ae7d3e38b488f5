//! Points at which a test can hold a thread: a gate is called there, and waits as long as the test says.

/// What is called at each point, with the number of the process. A test waits there; a program's gate does nothing.
pub trait Gate {
    fn at(&self, process: u8, point: u8);
}

/// A gate that does nothing.
#[derive(Drop)]
pub struct NoGate;

impl Gate for NoGate {
    fn at(&self, _process: u8, _point: u8) {}
}

// The numbers of the points: those of a turn, of the flusher's turn, and of a recovery.

/// A process took its number from the ready queue.
pub const NUMBER_TAKEN: u8 = 1;

/// A node is locked.
pub const NODE_LOCKED: u8 = 2;

/// A node has run, and its run isn't journalled yet. Its lock is held, the book's isn't.
pub const RUN_DONE: u8 = 3;

/// A node's run is journalled. The book's lock isn't held.
pub const COMMITTED: u8 = 4;

/// The flusher has copied the entries that it will append. No lock is held.
pub const BACKLOG_COPIED: u8 = 5;

/// The flusher has read pages of a frozen node, which it will put. No lock is held.
pub const PAGE_COPIED: u8 = 6;

/// A piece of a recovery begins: none of its entries is replayed yet. The process is the piece's first node.
pub const PIECE_BEGUN: u8 = 7;
