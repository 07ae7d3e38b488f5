//! What one node does on a lent book, in one call.

ghost use Rattle.std.specs.Prelude.{◌≡◌, None};
ghost use Rattle.tp_model.specs.declared.form.Form.TheVariants.{Turns};
ghost use Rattle.tp_tests_opening.specs.Nets.{IsHome, Leaves};

use tp_book::{Book, Refusal};
use tp_node::{Node, Runs};
use tp_turn::{Turn, node_turn, whole_turn};

/// What a node does in one call. It makes as many steps as the number says, at most.
#[derive(Clone, Copy)]
pub(crate) enum Deed {
    /// It makes a turn, an entry for each token that it takes and one for its run.
    Turn(u8),
    /// It makes a turn that is one entry.
    Whole(u8),
}

/// How many tokens a turn took.
fn takes_of(done: Result<Turn, Refusal>) -> Result<u64, Refusal> {
    match done {
        Ok(turn) => Ok(turn.takes),
        Err(refusal) => Err(refusal),
    }
}

/// A node does something in one call. Answers how many tokens it took.
pub(crate) fn does(
    book: &mut Book,
    node: &mut Node,
    runs: &mut Runs,
    number: u8,
    deed: Deed,
) -> Result<u64, Refusal>
    requires idle { book.old.ready ≡ None }
    requires form { book.old.form ≡ Turns }
    requires home { IsHome book.old number node.old }
    ensures leaves { Leaves number book.old book.new }
    ensures home { IsHome book.new number node.new }
{
    book.known();
    match deed {
        Deed::Turn(quantum) => takes_of(node_turn(book, node, runs, number, u16::from(quantum))),
        Deed::Whole(quantum) => takes_of(whole_turn(book, node, runs, number, u16::from(quantum))),
    }
}
