//! What is to be put under locks.

ghost use Rattle.std.specs.Prelude.{◌≡◌, ◌<◌, ℕ, [], None, Some, false, length, slice_get, IfOk};
ghost use Rattle.tp_shared.specs.Lower.{IsNodeOfBytes, next_in_book, NodeContents, IsNodeOf};
ghost use Rattle.tp_shared.specs.Agreement.{at_rest};
ghost use Rattle.tp_shared.specs.Parted.{AreOfOpened, IsDealt};

use crate::flusher::handed::Handed;
use crate::flusher::told::Told;
use crate::nodes::dealt::Dealt;
use crate::nodes::place::Place;
use crate::nodes::seal::NodeSeal;
use crate::nodes::shown::Shown;
use std::alloc::{AllocError, Global};
use std::marker::Model;
use std::snapshot::Snapshot;
use tp_book::Book;
use tp_model::Entry;
use tp_node::Node;
use tp_ready::Mark;
use tp_ready::roll::{Roll, start};
use tp_ready::twin::{Key, Seal, pair, turn};

/// What isn't under locks yet: a book, its nodes, their seals and keys, the roll of its entries, and the mark. Then both halves of what the
/// flusher is told and of what the host hands in, and the roll of what is seen of the book.
#[derive(Drop)]
pub struct Parts {
    pub(crate) book: Book,
    pub(crate) seals: Vec<NodeSeal>,
    pub(crate) dealt: Dealt,
    pub(crate) roll: Roll<Entry>,
    pub(crate) mark: Mark,
    pub(crate) told: Seal<Told>,
    pub(crate) key: Key<Told>,
    pub(crate) given: Seal<Handed>,
    pub(crate) host: Key<Handed>,
    pub(crate) sights: Roll<Snapshot<Book>>,
}

impl Model for Parts {
    ghost use Rattle.tp_shared.specs.Parted.{PartsValue, AreParts};

    ghost Value = { PartsValue };

    ghost view = { λ p. record { book = p.book; seals = p.seals.items; roll = p.roll.name; first = p.roll.first; all = p.roll.items; mark = p.mark; flusher = p.told.name; host = p.given.name; sights = p.sights.name } };

    ghost invariant = { λ p. AreParts p.book p.seals.items p.dealt p.roll.first p.roll.items p.told.name p.key.name p.given.name p.host.name p.given.value.entries p.host.value.entries p.sights.items };
}

// Makes a node's seal and key.
fn ends_of(node: &Node) -> (Seal<Shown>, Key<Shown>)
    ensures names { result.0.name ≡ result.1.name }
    ensures seal { result.0.value.state ≡ at_rest node.now }
    ensures key { result.1.value.state ≡ at_rest node.now }
{
    let (mut seal, mut key) = pair::<Shown>();
    let shown = Shown::free(node);
    turn(&mut seal, &mut key, &shown);
    (seal, key)
}

// Makes each node's seal and key, and deals the nodes to the cells.
fn deal(alloc: Global, book: &Book, nodes: Vec<Node>) -> Result<(Vec<NodeSeal>, Dealt), AllocError>
    requires free { (i : ℕ) → i < length nodes.items → slice_get book.now.runs i ≡ Some false }
    requires agree { (i : ℕ) (node : NodeContents) → slice_get nodes.items i ≡ Some node → IsNodeOf book.now i node }
    ensures dealt { IfOk result (λ d. IsDealt book.now d.0.items d.1 (length nodes.items)) }
{
    let _book = book;
    let mut seals = Vec::new(alloc);
    let mut dealt = Dealt::new(alloc);
    for node in nodes {
        let index = seals.len();
        let (seal, key) = ends_of(&node);
        let frozen = node.is_frozen();
        seals.push(NodeSeal { frozen, seal })?;
        dealt.push(index, Place { node, key })?;
    }
    Ok((seals, dealt))
}

impl Parts {
    /// Makes the parts of the book of an opened device, and of the nodes of its network as it is. `AllocError` if memory is out.
    pub fn opened(
        alloc: Global,
        book: Book,
        nodes: Vec<Node>,
        mark: Mark,
    ) -> Result<Parts, AllocError>
        requires opened { AreOfOpened book nodes.items }
        requires each { (i : ℕ) (node : NodeContents) → slice_get nodes.items i ≡ Some node → IsNodeOfBytes node.live × (node.frozen ≡ None) }
        ensures book { IfOk result (λ parts. parts.book ≡ book) }
        ensures roll { IfOk result (λ parts. (parts.first ≡ next_in_book book) × (parts.all ≡ [])) }
        ensures mark { IfOk result (λ parts. parts.mark ≡ mark) }
    {
        book.known();
        Parts::new(alloc, book, nodes, mark)
    }

    /// Makes the parts of a book that has just been started or opened, and of its nodes. `AllocError` if memory is out.
    pub fn new(alloc: Global, book: Book, nodes: Vec<Node>, mark: Mark) -> Result<Parts, AllocError>
        requires idle { book.ready ≡ None }
        requires opened { book.history ≡ [] }
        requires count { (length nodes.items ≡ length book.state.start.nodes) × (length book.runs ≡ length book.state.start.nodes) }
        requires free { (i : ℕ) → i < length nodes.items → slice_get book.runs i ≡ Some false }
        requires agree { (i : ℕ) (node : NodeContents) → slice_get nodes.items i ≡ Some node → IsNodeOf book i node }
        ensures book { IfOk result (λ parts. parts.book ≡ book) }
        ensures roll { IfOk result (λ parts. (parts.first ≡ next_in_book book) × (parts.all ≡ [])) }
        ensures mark { IfOk result (λ parts. parts.mark ≡ mark) }
    {
        let (seals, dealt) = deal(alloc, &book, nodes)?;
        let roll = start::<Entry>(book.next());
        let (told, key) = pair::<Told>();
        let (given, host) = pair::<Handed>();
        let sights = start::<Snapshot<Book>>(0);
        Ok(Parts {
            book,
            seals,
            dealt,
            roll,
            mark,
            told,
            key,
            given,
            host,
            sights,
        })
    }
}
