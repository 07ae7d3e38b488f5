//! A node's turn in the form of its book. It is opened in one hold of the book and committed in another, between which the form may change.
//! So it is committed by how it was opened.

ghost use Rattle.std.specs.Prelude.{◌≡◌, Some, None, true, false, length, slice_get};
ghost use Rattle.tp_turn.specs.Lower.{by_link, received, without_run};
ghost use Rattle.tp_turn.specs.Moments.{IsNodeOf, Added, moment_of};
ghost use Rattle.tp_turn.specs.Opened.{HasTurnedBy, IsOpenedIn, OpensIn, opened_acts, taken_in};

use crate::receiving::Taken;
use crate::stages::{Stretch, commit_turn, open_turn};
use crate::whole::{commit_whole, open_whole};
use tp_book::{Book, Refusal};
use tp_model::{Form, Received};
use tp_node::{Node, Ran};

/// How a node's turn was opened.
#[derive(Drop)]
pub enum Opened {
    /// It took this many tokens, and each is already an entry.
    Apart(u64),
    /// It received these, which stay on their lines until the turn's one entry.
    Whole(Taken),
}

/// Counts the tokens that were received on one link.
#[inline(always)]
fn count_of(one: Received) -> u64
    ensures { result ≡ length (received one) }
{
    match one {
        Received::Nothing => 0,
        Received::JustData(_) | Received::JustAck => 1,
        Received::DataThenAck(_) | Received::AckThenData(_) => 2,
    }
}

/// Counts the tokens that were received on all links, as many as `tokens_of` would list.
#[inline(always)]
fn count_all(takes: &[Received; 4]) -> u64
    ensures { result ≡ length (by_link 0 takes.now) }
{
    count_of(takes[0]) + count_of(takes[1]) + count_of(takes[2]) + count_of(takes[3])
}

impl Opened {
    /// Counts the tokens that the node took.
    pub fn taken(&self) -> u64
        ensures { result ≡ taken_in self.now }
    {
        match self {
            Opened::Apart(taken) => *taken,
            Opened::Whole(taken) => count_all(&taken.takes),
        }
    }
}

/// Opens a node's turn in the form of its book: as `open_turn` for `Plain`, and as `open_whole` for `Turns`. A run or a turn of the node is
/// then reserved.
///
/// Fails as `open_turn` or `open_whole` does. What was done before stays, and nothing is reserved.
pub fn open_in_form(book: &mut Book, node: &mut Node, number: u8) -> Result<Opened, Refusal>
    requires free { slice_get book.old.runs number ≡ Some false }
    requires idle { book.old.ready ≡ None }
    requires is { IsNodeOf book.old number node.old }
    ensures opens { OpensIn book.old.form number result (moment_of book.old node.old) (moment_of book.new node.new) }
    ensures is { IsOpenedIn result book.new number node.new }
{
    match book.form() {
        Form::Plain => Ok(Opened::Apart(open_turn(book, node, number)?)),
        Form::Turns => Ok(Opened::Whole(open_whole(book, node, number)?)),
    }
}

/// Journals what a node ran since its turn was opened, and what it received for it. It works as `commit_turn` if the turn took tokens
/// apart, whatever the book's form is by now, and else as `commit_whole`. The reservation ends. Others may have changed the book in
/// between.
pub fn commit_opened(
    book: &mut Book,
    node: &Node,
    number: u8,
    opened: Opened,
    stretch: Stretch,
) -> Ran
    requires reserved { slice_get book.old.runs number ≡ Some true }
    requires idle { book.old.ready ≡ None }
    requires turned { HasTurnedBy book.old number opened stretch.ran.count stretch.sent.items node.now }
    ensures ran { result ≡ stretch.ran }
    ensures added { Added number node.now.live (opened_acts number opened stretch.ran.count) (without_run book.old number) book.new }
    ensures is { IsNodeOf book.new number node.now }
{
    match opened {
        Opened::Apart(_) => commit_turn(book, node, number, stretch),
        Opened::Whole(taken) => commit_whole(book, node, number, taken, stretch),
    }
}
