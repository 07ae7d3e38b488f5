//! A node and the book of its network.

ghost use Rattle.std.specs.Prelude.{◌≡◌, IfOk, None, Some};
ghost use Rattle.tp_turn.specs.Lone.{Begins, IsLone, IsOutputOf, StandsAs, lone_of};
ghost use Rattle.tp_turn.specs.Tried.{fresh_image};

use crate::image::lone_parts;
use std::alloc::{AllocError, Global};
use tp_book::Book;
use tp_node::{Node, Runs, Standing};

/// A node whose link 0 is wired to port 0, and the book of its network, which has no device. Between turns the book has no
/// entries.
#[derive(Drop)]
pub(crate) struct Lone {
    pub(crate) book: Book,
    pub(crate) node: Node,
    /// What it keeps of the instructions that it has read.
    pub(crate) runs: Runs,
}

impl Lone {
    /// Makes the network of the node of an image, before its first entry. `AllocError` if memory is out.
    pub(crate) fn start(alloc: Global, image: &[u8], node: Node) -> Result<Lone, AllocError>
        requires fresh { fresh_image image.now ≡ Some node.live }
        requires thawed { node.frozen ≡ None }
        ensures { IfOk result (λ lone. Begins node.live lone) }
    {
        let net = lone_parts(alloc, image)?;
        let book = Book::start(alloc, &net, None)?;
        let runs = Runs::new(alloc)?;
        Ok(Lone { book, node, runs })
    }

    /// Copies what port 0 has put out. `AllocError` if memory is out.
    pub(crate) fn output(&self, alloc: Global) -> Result<Vec<u8>, AllocError>
        requires { IsLone self.now }
        ensures { IfOk result (λ output. IsOutputOf (lone_of self.now).network output.items) }
    {
        Vec::from_slice(alloc, self.book.outputs(0))
    }

    /// Tells the node's state between its turns.
    pub(crate) fn standing(&self) -> Standing
        requires { IsLone self.now }
        ensures { StandsAs (lone_of self.now).network result }
    {
        self.node.standing()
    }
}
