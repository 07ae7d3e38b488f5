//! The host's calls of a book with one port.

ghost use Rattle.tp_tests_opening.specs.Usable.{IsUsable};

use tp_book::{Book, Refusal};

/// Hands `bytes` to port 0, and gives the receipt's number.
pub fn hand_in(book: &mut Book, bytes: &[u8]) -> Result<u64, Refusal>
    requires { IsUsable book.old }
    ensures { IsUsable book.new }
{
    let receipt = book.host_in(0, bytes)?;
    Ok(receipt.number())
}

/// Whether `mark` shows exactly `bytes` from the position `from` on.
pub fn is_shown(book: &Book, mark: u64, from: u64, bytes: &[u8]) -> bool
    requires { IsUsable book.now }
{
    if from < book.out_base(0) || from > book.shown_upto(0, mark) {
        return false;
    }
    book.shown(0, mark, from) == bytes
}
