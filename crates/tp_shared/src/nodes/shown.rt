//! What two locks agree on of a node.

ghost use Rattle.std.specs.Prelude.{◌≡◌};
ghost use Rattle.std.specs.Borrow.{ftrue};
ghost use Rattle.tp_shared.specs.Agreement.{Agreement, answered_with, at_rest};

use std::marker::Model;
use tp_book::{Book, Refusal};
use tp_node::Node;
use tp_turn::Opened;

/// What the book's lock and a node's lock agree on of the node. It has no bytes: only contracts see it.
#[derive(Drop)]
pub struct Shown {
    pub ghost state: { Agreement },
}

impl Model for Shown {
    ghost also_owns = { λ _. ftrue };
}

impl Shown {
    // Gives the ghost value `state`, which a contract names by what is lent as `_value`. The function does nothing.
    fn of<T>(_value: &T) -> Shown
        ghost state: { Agreement }
        ensures { result.state ≡ state }
    {
        Shown {}
    }

    /// Shows the node as it is, with no turn open.
    pub(crate) fn free(node: &Node) -> Shown
        ensures { result.state ≡ at_rest node.now }
    {
        Shown::of(node)
    }

    /// Shows what the book has of the node once the opening of its turn was answered, and what the node received by then.
    pub(crate) fn answered(
        book: &Book,
        node: &Node,
        number: u8,
        answer: &Result<Opened, Refusal>,
    ) -> Shown
        ensures { result.state ≡ answered_with book.now number node.now answer.now }
    {
        let lent = ((book, node), (number, answer));
        Shown::of(&lent)
    }
}
