//! A node's turn that is one entry, in its stages, so that the book is free while the node runs.

ghost use Rattle.std.specs.Prelude.{◌≡◌, ◌++◌, ◌≤◌, ◌+◌, Some, None, true, false, length, slice_get};
ghost use Rattle.tp_turn.specs.Lower.{Turns, MAX_STEPS, turn_acts, without_run, reserve_refusal, JournalFull};
ghost use Rattle.tp_turn.specs.Moments.{IsNodeOf, Added, Done, moment_of};
ghost use Rattle.tp_turn.specs.Receiving.{IsAheadBy};
ghost use Rattle.tp_turn.specs.Whole.{EndsWhole, HasTurnedOn, OpensWhole, TurnsWhole};

use crate::markers::answer_markers;
use crate::receiving::{Taken, receive};
use crate::stages::{Stretch, Turn, run_node};
use arrayvec::ArrayVec;
use tp_book::{Book, Refusal, tokens_of};
use tp_model::{Received, Token};
use tp_node::{Node, Ran, Runs};

/// Journals a turn for which room was reserved, and in which `node` took `takes`, made `count` steps and sent `tokens` for all of it.
#[inline(always)]
fn commit(
    book: &mut Book,
    node: &Node,
    number: u8,
    takes: &[Received; 4],
    count: u16,
    tokens: &[(u8, Token)],
)
    requires reserved { slice_get book.old.runs number ≡ Some true }
    requires idle { book.old.ready ≡ None }
    requires form { book.old.form ≡ Turns }
    requires turned { HasTurnedOn book.old number takes.now count tokens.now node.now }
    ensures added { Added number node.now.live (turn_acts number takes.now count) (without_run book.old number) book.new }
    ensures is { IsNodeOf book.new number node.now }
{
    let _node = node;
    book.known();
    let _note = book.commit_turn(number, takes, count, tokens);
}

/// Ends a turn for which the journal is full, and answers why. If the node has recorded, it first receives what the running snapshot needs,
/// for which room is kept. That is one entry of no steps; none if there is nothing.
#[inline(never)]
fn take_needed(book: &mut Book, node: &mut Node, number: u8) -> Refusal
    requires free { slice_get book.old.runs number ≡ Some false }
    requires idle { book.old.ready ≡ None }
    requires form { book.old.form ≡ Turns }
    requires full { reserve_refusal book.old ≡ Some JournalFull }
    requires is { IsNodeOf book.old number node.old }
    ensures done { Done number (EndsWhole number result) (moment_of book.old node.old) (moment_of book.new node.new) }
    ensures is { IsNodeOf book.new number node.new }
{
    if !book.recorded(number as usize) {
        return Refusal::JournalFull;
    }
    match book.reserve_takes(number) {
        Ok(()) => {
            let Taken { takes, sent } = receive(book, node, number, false);
            commit(book, node, number, &takes, 0, sent.as_slice());
            Refusal::JournalFull
        }
        Err(refusal) => refusal,
    }
}

/// Opens a node's whole turn. The node records if it is asked to, lines with a Marker at the front are closed if it has recorded, and a
/// turn of it is reserved. Then it receives what is at the front of its lines. The tokens stay there until the commit. Answers what it
/// received.
///
/// Fails with `StoreBroken` or `Memory` if no turn could be reserved; then it received nothing. Fails with `JournalFull` if the journal has
/// no room for a turn. A node that has recorded has then received what the running snapshot needs, and that was journalled. What was
/// recorded and closed before stays, and nothing is reserved. There is no other error.
#[inline(always)]
pub fn open_whole(book: &mut Book, node: &mut Node, number: u8) -> Result<Taken, Refusal>
    requires free { slice_get book.old.runs number ≡ Some false }
    requires idle { book.old.ready ≡ None }
    requires form { book.old.form ≡ Turns }
    requires is { IsNodeOf book.old number node.old }
    ensures opens { OpensWhole number result (moment_of book.old node.old) (moment_of book.new node.new) }
    ensures ahead { IsAheadBy result book.new number node.new }
{
    answer_markers(book, node, number);
    match book.reserve_turn(number) {
        Ok(()) => Ok(receive(book, node, number, true)),
        Err(Refusal::JournalFull) => Err(take_needed(book, node, number)),
        Err(refusal) => Err(refusal),
    }
}

/// Joins what a node answered to what it took and what it then sent as it ran.
fn all_sent(answers: &[(u8, Token)], sent: &[(u8, Token)]) -> ArrayVec<(u8, Token), 16>
    requires { length answers.now + length sent.now ≤ 16 }
    ensures { result.items ≡ answers.now ++ sent.now }
{
    let mut tokens = ArrayVec::new();
    let (Ok(()), Ok(())) = (
        tokens.try_extend_from_slice(answers),
        tokens.try_extend_from_slice(sent),
    ) else {
        unreachable!()
    };
    tokens
}

/// Journals a turn for which room was reserved. In the turn `node` answered `sent` to what it took and then sent `more` as it ran. It does
/// what `commit` does, with the two joined.
#[inline(never)]
fn commit_all(
    book: &mut Book,
    node: &Node,
    number: u8,
    takes: &[Received; 4],
    count: u16,
    sent: &ArrayVec<(u8, Token), 8>,
    more: &ArrayVec<(u8, Token), 8>,
)
    requires reserved { slice_get book.old.runs number ≡ Some true }
    requires idle { book.old.ready ≡ None }
    requires form { book.old.form ≡ Turns }
    requires turned { HasTurnedOn book.old number takes.now count (sent.now.items ++ more.now.items) node.now }
    ensures added { Added number node.now.live (turn_acts number takes.now count) (without_run book.old number) book.new }
    ensures is { IsNodeOf book.new number node.now }
{
    let tokens = all_sent(sent.as_slice(), more.as_slice());
    commit(book, node, number, takes, count, tokens.as_slice());
}

/// Journals what a node received and ran since its turn was opened: one entry, or none if it took nothing and made no step. The reservation
/// ends. Others may have changed the book in between.
#[inline(always)]
pub fn commit_whole(book: &mut Book, node: &Node, number: u8, taken: Taken, stretch: Stretch) -> Ran
    requires reserved { slice_get book.old.runs number ≡ Some true }
    requires idle { book.old.ready ≡ None }
    requires form { book.old.form ≡ Turns }
    requires turned { HasTurnedOn book.old number taken.takes stretch.ran.count (taken.sent.items ++ stretch.sent.items) node.now }
    ensures ran { result ≡ stretch.ran }
    ensures added { Added number node.now.live (turn_acts number taken.takes stretch.ran.count) (without_run book.old number) book.new }
    ensures is { IsNodeOf book.new number node.now }
{
    let Taken { takes, sent } = taken;
    let Stretch { ran, sent: more } = stretch;
    if sent.is_empty() {
        commit(book, node, number, &takes, ran.count(), more.as_slice());
    } else {
        commit_all(book, node, number, &takes, ran.count(), &sent, &more);
    }
    ran
}

/// Does a node's whole turn: opens it, lets the node run for at most `quantum` steps, and journals what it took and ran as one entry.
/// `runs` is what the thread keeps of instructions.
///
/// Fails as `open_whole` does. What was done before stays, and nothing ran.
pub fn whole_turn(
    book: &mut Book,
    node: &mut Node,
    runs: &mut Runs,
    number: u8,
    quantum: u16,
) -> Result<Turn, Refusal>
    requires quantum { quantum ≤ MAX_STEPS }
    requires free { slice_get book.old.runs number ≡ Some false }
    requires idle { book.old.ready ≡ None }
    requires form { book.old.form ≡ Turns }
    requires is { IsNodeOf book.old number node.old }
    ensures done { Done number (TurnsWhole number quantum result) (moment_of book.old node.old) (moment_of book.new node.new) }
    ensures is { IsNodeOf book.new number node.new }
{
    let taken = open_whole(book, node, number)?;
    let takes = tokens_of(&taken.takes).len() as u64;
    let stretch = run_node(node, runs, quantum);
    let ran = commit_whole(book, node, number, taken, stretch);
    Ok(Turn { takes, ran })
}
