//! What is done for a node while the book's lock is held.

ghost use Rattle.std.specs.Prelude.{◌≡◌, [], Some, None, true, false, slice_get, IfErr};
ghost use Rattle.tp_shared.specs.Lower.{has_recorded_in, without_run, Added, Done, IsNodeOf, moment_of, HasTurnedBy, IsOpenedIn, OpensIn, opened_acts, opened_entries, Records};
ghost use Rattle.tp_shared.specs.Agreement.{answered_with, at_rest};
ghost use Rattle.tp_shared.specs.BookActs.{NodeActed};
ghost use Rattle.tp_shared.specs.Entries.{IsTurnRefusal, OpenedEntries};

use tp_book::{Book, Refusal};
use tp_node::{Node, Ran};
use tp_turn::{Opened, Stretch, commit_opened, open_in_form, record_asked};

/// Opens a node's turn in the form of its book. The node records if it is asked to, takes or receives what came in, and a turn of it is
/// reserved. Answers how it was opened.
pub(crate) fn begin(book: &mut Book, node: &mut Node, number: u8) -> Result<Opened, Refusal>
    requires free { slice_get book.old.runs number ≡ Some false }
    requires idle { book.old.ready ≡ None }
    requires is { IsNodeOf book.old number node.old }
    ensures acted { NodeActed (OpenedEntries book.old.state.start number result) number (answered_with book.new number node.new result) book.old book.new }
    ensures opens { OpensIn book.old.form number result (moment_of book.old node.old) (moment_of book.new node.new) }
    ensures is { IsOpenedIn result book.new number node.new }
    ensures stays { has_recorded_in book.old.state.snapshot number ≡ true → node.new.frozen ≡ node.old.frozen }
    ensures refused { IfErr result IsTurnRefusal }
{
    open_in_form(book, node, number)
}

/// Lets a node record, if it is asked to. It takes nothing, and nothing runs.
pub(crate) fn record(book: &mut Book, node: &mut Node, number: u8)
    requires free { slice_get book.old.runs number ≡ Some false }
    requires is { IsNodeOf book.old number node.old }
    ensures acted { NodeActed (λ entries. entries ≡ []) number (at_rest node.new) book.old book.new }
    ensures did { Done number (Records number) (moment_of book.old node.old) (moment_of book.new node.new) }
    ensures is { IsNodeOf book.new number node.new }
    ensures stays { has_recorded_in book.old.state.snapshot number ≡ true → node.new.frozen ≡ node.old.frozen }
{
    record_asked(book, node, number);
}

/// Journals a node's turn by how it was opened, whatever the book's form is by now: its run, and, for a turn that is one entry, what it
/// received.
pub(crate) fn commit(
    book: &mut Book,
    node: &Node,
    number: u8,
    opened: Opened,
    stretch: Stretch,
) -> Ran
    requires reserved { slice_get book.old.runs number ≡ Some true }
    requires idle { book.old.ready ≡ None }
    requires turned { HasTurnedBy book.old number opened stretch.ran.count stretch.sent.items node.now }
    ensures ran { result ≡ stretch.ran }
    ensures acted { NodeActed (λ entries. entries ≡ opened_entries number opened stretch.ran.count) number (at_rest node.now) book.old book.new }
    ensures added { Added number node.now.live (opened_acts number opened stretch.ran.count) (without_run book.old number) book.new }
    ensures is { IsNodeOf book.new number node.now }
{
    commit_opened(book, node, number, opened, stretch)
}
