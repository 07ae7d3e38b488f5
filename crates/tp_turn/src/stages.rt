//! A node's turn in its stages, so that the book is free while the node runs.

ghost use Rattle.std.specs.Prelude.{◌≡◌, ◌≤◌, Some, None, true, false, slice_get};
ghost use Rattle.tp_turn.specs.Lower.{MAX_STEPS, steps, t414, node_ranges, kept_behind_steps, LacksFrames, memory_kept, IsWhy, run_acts, without_run};
ghost use Rattle.tp_turn.specs.Moments.{IsNodeOf, Added, Done, moment_of};
ghost use Rattle.tp_turn.specs.Stages.{Opens, HasRunOn, TurnsAs};

use crate::settling::settle;
use arrayvec::ArrayVec;
use tp_book::{Book, Refusal};
use tp_model::Token;
use tp_node::{Node, Ran, Runs};

/// What a node ran: how far, and what it sent, each token with its link.
#[derive(Drop)]
pub struct Stretch {
    pub ran: Ran,
    pub sent: ArrayVec<(u8, Token), 8>,
}

/// What a node's turn did: how many tokens it took, and how far the node ran.
#[derive(Drop)]
pub struct Turn {
    pub takes: u64,
    pub ran: Ran,
}

/// Opens a node's turn: the node settles, and a run of it is reserved. Answers how many tokens were taken.
///
/// Fails as `settle` and `Book::reserve_run` do. What was done before stays, and nothing is reserved.
pub fn open_turn(book: &mut Book, node: &mut Node, number: u8) -> Result<u64, Refusal>
    requires free { slice_get book.old.runs number ≡ Some false }
    requires idle { book.old.ready ≡ None }
    requires is { IsNodeOf book.old number node.old }
    ensures opens { Opens number result (moment_of book.old node.old) (moment_of book.new node.new) }
    ensures is { IsNodeOf book.new number node.new }
{
    let takes = settle(book, node, number)?;
    book.reserve_run(number)?;
    Ok(takes)
}

/// Lets a node run for at most `quantum` steps. It needs no book. It ends for lack of a frame only before a step that would write more
/// shared pages than there are free frames, and doesn't count that step. `runs` is what the thread keeps of instructions.
#[inline(never)]
pub fn run_node(node: &mut Node, runs: &mut Runs, quantum: u16) -> Stretch
    ensures asked { result.ran.max ≡ quantum }
    ensures steps { steps t414 result.ran.count node.old.live ≡ Some (node.new.live, result.sent.items) }
    ensures why { IsWhy result.ran.why quantum result.ran.count (LacksFrames (memory_kept node.new) (node_ranges node.new.live)) node.new.live }
    ensures kept { node.new.frozen ≡ node.old.frozen }
    ensures shared { memory_kept node.new ≡ kept_behind_steps result.ran.count node.old.live (memory_kept node.old) }
{
    let mut sent = ArrayVec::new();
    let ran = node.run(runs, quantum, &mut sent);
    Stretch { ran, sent }
}

/// Journals what a node ran since its run was reserved: one entry, or none without a step. The reservation ends. Others may have changed
/// the book in between.
pub fn commit_turn(book: &mut Book, node: &Node, number: u8, stretch: Stretch) -> Ran
    requires reserved { slice_get book.old.runs number ≡ Some true }
    requires idle { book.old.ready ≡ None }
    requires ran { HasRunOn book.old number stretch.ran.count stretch.sent.items node.now }
    ensures ran { result ≡ stretch.ran }
    ensures added { Added number node.now.live (run_acts number stretch.ran.count) (without_run book.old number) book.new }
    ensures is { IsNodeOf book.new number node.now }
{
    let Stretch { ran, sent } = stretch;
    let _note = book.commit_run(number, ran.count(), sent.as_slice());
    ran
}

/// Does a node's turn: opens it, lets the node run for at most `quantum` steps, and journals the run. `runs` is what the thread keeps of
/// instructions.
///
/// Fails as `open_turn` does. What was done before stays, and nothing ran.
pub fn node_turn(
    book: &mut Book,
    node: &mut Node,
    runs: &mut Runs,
    number: u8,
    quantum: u16,
) -> Result<Turn, Refusal>
    requires quantum { quantum ≤ MAX_STEPS }
    requires free { slice_get book.old.runs number ≡ Some false }
    requires idle { book.old.ready ≡ None }
    requires is { IsNodeOf book.old number node.old }
    ensures done { Done number (TurnsAs number quantum result) (moment_of book.old node.old) (moment_of book.new node.new) }
    ensures is { IsNodeOf book.new number node.new }
{
    let takes = open_turn(book, node, number)?;
    let stretch = run_node(node, runs, quantum);
    let ran = commit_turn(book, node, number, stretch);
    Ok(Turn { takes, ran })
}
