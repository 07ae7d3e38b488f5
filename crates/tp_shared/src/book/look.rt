//! Reading the state of the snapshot.

ghost use Rattle.std.specs.Prelude.{◌≡◌, ◌<◌, ◌≤◌, ℕ, false, get_or, length};
ghost use Rattle.tp_shared.specs.Lower.{MAX_NODES, has_recorded_in, count_of_nodes};

use crate::book::locked::Locked;
use crate::naming::Naming;
use tp_book::Book;
use tp_model::limits::MAX_NODES;

/// Whether a snapshot runs, in which the host recorded as it began, and which nodes have recorded in it.
#[derive(Clone, Copy)]
pub struct Look {
    pub running: bool,
    pub recorded: [bool; MAX_NODES],
}

// Tells for each node whether it has recorded.
fn recorded_in(book: &Book) -> [bool; MAX_NODES]
    requires { count_of_nodes book.now ≤ MAX_NODES }
    ensures { (i : ℕ) → i < count_of_nodes book.now → get_or result i false ≡ has_recorded_in book.now.state.snapshot i }
{
    let mut recorded = [false; MAX_NODES];
    for node in 0..book.nodes() {
        recorded[node] = book.recorded(node);
    }
    recorded
}

impl<J: Naming> Locked<J> {
    /// Reads the state of the snapshot. If none runs, no node's lock is needed for one.
    pub fn look(&self) -> Look
        ensures running { result.running ≡ has_recorded_in self.now.book.state.snapshot (length J.start.nodes) }
        ensures recorded { (i : ℕ) → i < length J.start.nodes → get_or result.recorded i false ≡ has_recorded_in self.now.book.state.snapshot i }
    {
        self.book.known();
        Look {
            running: self.book.recorded(self.book.nodes()),
            recorded: recorded_in(&self.book),
        }
    }
}
