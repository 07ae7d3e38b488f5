//! A whole network in memory, in one thread: its nodes and its book.

ghost use Rattle.std.specs.Prelude.{◌≡◌, ℕ, IfOk, IsSome, is_none, map, None, Some, slice_get, true};
ghost use Rattle.tp_tests_opening.specs.Lower.{list_all, IsNodeOfBytes, Turns, NodeState, IsWellOpen, now_of};
ghost use Rattle.tp_tests_opening.specs.Nets.{seen, spelt};

use crate::deeds::{Deed, does};
use std::alloc::{AllocError, Global};
use std::marker::Model;
use std::test::Fail;
use tp_book::{Book, NetState, Refusal};
use tp_disk::MemDisk;
use tp_model::Form;
use tp_model::limits::{IMAGE_HEAD_BYTES, PAGE_BYTES};
use tp_node::{Node, Runs};
use tp_recover::open;
use tp_turn::host_turn;

/// A network in memory. Each of its nodes is the one that the book's entries make of it. Its thread keeps what it has read of instructions of all of
/// them.
#[derive(Drop)]
pub(crate) struct Net {
    book: Book,
    nodes: Vec<Node>,
    runs: Runs,
}

impl Model for Net {
    ghost use Rattle.tp_tests_opening.specs.Nets.{NetValue, HasNodes};

    ghost Value = { NetValue };

    ghost view = { λ n. record { book = n.book; nodes = n.nodes.items } };

    ghost invariant = { λ n. HasNodes n.book n.nodes.items };
}

/// The nodes of images.
fn nodes_of(alloc: Global, images: &[Vec<u8>], spare: usize) -> Result<Vec<Node>, Fail>
    ensures { IfOk result (λ nodes. seen nodes.items ≡ spelt (map (λ image. image.items) images.now)) }
{
    let mut nodes = Vec::new(alloc);
    for i in 0..images.len() {
        let node = Node::from_image(alloc, &images[i], spare)?;
        nodes.push(node)?;
    }
    Ok(nodes)
}

/// Whether a book may hold turns.
fn holds_turns(book: &Book) -> bool
    ensures { result ≡ true → book.now.form ≡ Turns }
{
    match book.form() {
        Form::Turns => true,
        Form::Plain => false,
    }
}

/// The image of a frozen node.
fn frozen_image(alloc: Global, node: &Node) -> Result<Vec<u8>, AllocError>
    requires { IsSome node.now.frozen }
{
    let mut head = [0; IMAGE_HEAD_BYTES];
    let mut page = [0; PAGE_BYTES];
    node.frozen_head(&mut head);
    let mut image = Vec::from_slice(alloc, &head)?;
    for number in 0..node.pages() {
        node.frozen_page(number, &mut page);
        image.extend_from_slice(&page)?;
    }
    Ok(image)
}

/// The image of a node, as it recorded; empty if it isn't frozen. Then it isn't frozen.
fn image_of(alloc: Global, node: &mut Node) -> Result<Vec<u8>, AllocError>
    ensures live { node.new.live ≡ node.old.live }
    ensures thawed { node.new.frozen ≡ None }
{
    if !node.is_frozen() {
        node.drop_frozen();
        return Ok(Vec::new(alloc));
    }
    let image = frozen_image(alloc, node);
    node.drop_frozen();
    image
}

impl Net {
    /// The network of what a device leaves, if groups may fill `room` bytes.
    fn of_state(alloc: Global, state: &NetState, room: u64, spare: usize) -> Result<Net, Fail>
        requires opened { IsWellOpen state.now }
        requires nodes { (i : ℕ) (node : NodeState) → slice_get (now_of state.now).nodes i ≡ Some node → IsNodeOfBytes node }
    {
        let nodes = nodes_of(alloc, &state.net.images, spare)?;
        let book = Book::open(alloc, state, Some(room))?;
        if !holds_turns(&book) {
            return Err(Fail::from("it holds no turns"));
        }
        let runs = Runs::new(alloc)?;
        Ok(Net { book, nodes, runs })
    }

    /// The network of a device.
    pub(crate) fn of_device(alloc: Global, disk: &mut MemDisk, spare: usize) -> Result<Net, Fail> {
        let opened = open(alloc, disk)?;
        opened.known();
        let room = opened.journal_room();
        let state = opened.into_state(alloc)?;
        let net = Net::of_state(alloc, &state, room, spare);
        net
    }

    pub(crate) fn book(&self) -> &Book {
        &self.book
    }

    pub(crate) fn nodes(&self) -> &[Node] {
        self.nodes.as_slice()
    }

    /// Whether a Marker is before a line.
    pub(crate) fn is_marked(&self, line: u16) -> bool {
        self.book.known();
        let there = usize::from(line) < 4 * self.book.nodes() + self.book.ports();
        there && self.book.marker_ready(line)
    }

    /// A node does something in one call. Answers how many tokens it took; `None` if there is no such node.
    pub(crate) fn does(&mut self, number: u8, deed: Deed) -> Option<Result<u64, Refusal>> {
        let place = usize::from(number);
        if place >= self.nodes.len() {
            return None;
        }
        Some(does(
            &mut self.book,
            &mut self.nodes[place],
            &mut self.runs,
            number,
            deed,
        ))
    }

    /// The host's turn.
    pub(crate) fn host_turn(&mut self) -> Result<u64, Refusal> {
        self.book.known();
        host_turn(&mut self.book)
    }

    /// Hands bytes to a port.
    pub(crate) fn hand_in(&mut self, port: u8, bytes: &[u8]) -> Option<Result<u64, Refusal>> {
        self.book.known();
        if usize::from(port) >= self.book.ports() {
            return None;
        }
        match self.book.host_in(port, bytes) {
            Ok(receipt) => Some(Ok(receipt.number())),
            Err(refusal) => Some(Err(refusal)),
        }
    }

    /// A snapshot begins.
    pub(crate) fn begin(&mut self, alloc: Global) -> Result<(), Refusal> {
        self.book.begin(alloc)
    }

    /// The image of a node, as it recorded; empty if it isn't frozen, or there is no such node. Then it isn't frozen.
    pub(crate) fn image(&mut self, alloc: Global, number: usize) -> Result<Vec<u8>, AllocError> {
        if number >= self.nodes.len() {
            return Ok(Vec::new(alloc));
        }
        image_of(alloc, &mut self.nodes[number])
    }

    /// Whether no node is frozen.
    fn is_thawed(&self) -> bool
        ensures { result ≡ list_all (λ node. is_none node.frozen) self.now.nodes }
    {
        self.nodes.iter().all(|node| !node.is_frozen())
    }

    /// Trims the book to its whole cut, once no node is frozen. Answers whether it did.
    pub(crate) fn take_in(&mut self) -> bool {
        if self.book.whole().is_none() || !self.is_thawed() {
            return false;
        }
        self.book.take_in();
        true
    }
}
