//! What a book of an opened device is to the laws of cuts and of runs.

ghost use Rattle.std.specs.Prelude.{◌≡◌, ℕ, Option, map};
ghost use Rattle.tp_book.specs.Lower.{t414, IsFirst, Opened, book_of};
ghost use Rattle.tp_book.specs.declared.state.NetState.{NetState};
ghost use Rattle.tp_book.specs.Book.{world_of};
ghost use Rattle.tp_book.specs.Opened.{cut_of, kept_entries, now_of, IsWellOpen, opened_book};

/// The law of cuts begins with the book of any state that `Book::open` needs. No snapshot runs, and the entries lead from the kept cut to
/// the network as it is, which has no Marker. If the state is what opening answered, a run goes on from the device with that book. The
/// function does nothing.
pub fn opened_books_begin()
    ensures cuts { (s : NetState) (room : Option ℕ) → IsWellOpen s → IsFirst t414 (world_of (opened_book s room)) }
    ensures runs { (s : NetState) (room : Option ℕ) (o : Opened) → IsWellOpen s → cut_of s ≡ o.cut → kept_entries s ≡ map (λ e. e.0) o.kept → now_of s ≡ o.now
        → world_of (opened_book s room) ≡ book_of o }
{}
