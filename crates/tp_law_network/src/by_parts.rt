//! Entries, replayed by pieces of a network. A piece is some of the processes, and the lines that these send, and it goes through all
//! entries by itself. The functions do nothing; their contracts are the laws.

ghost use Rattle.std.specs.Prelude.{◌≡◌, ◌⊎◌, ◌<◌, ◌≤◌, ◌+◌, ◌++◌, ℕ, List, [], ◌∷◌, Some, length};
ghost use Rattle.tp_law_network.specs.Lower.{Form, NUMBER_LIMIT, Token, Entry, Take, NodeState, Network, on_line, next, markers, after, Replay, Sound, t414, t414_ends};
ghost use Rattle.tp_law_network.specs.Piece.{Agrees, Covers, Piece};
ghost use Rattle.tp_law_network.specs.InPiece.{next_in};
ghost use Rattle.tp_law_network.specs.Reach.{after_by, reach};
ghost use Rattle.tp_law_network.specs.Stops.{IsLeastOf, StopsAt};
ghost use Rattle.tp_law_network.specs.Together.{IsTogether};
ghost use Rattle.tp_law_network.specs.Readable.{bare, readable};
ghost use Rattle.tp_law_network.specs.RowsStop.{IsRefusedBy, RowsStop};
ghost use Rattle.tp_law_network.specs.Arrivals.{came, named};
ghost use Rattle.tp_law_network.specs.Becomes.{BecomesByItself};
ghost use Rattle.tp_law_network.specs.CanFollow.{StopsAtFault};

/// Pieces that together have all processes: the entries stop in the whole network at the least place where one of the pieces stops. A piece
/// may stop before an entry that isn't possible in it, and before one that would leave more than two tokens on a line of its own. In a
/// sound network without Markers the second never happens.
pub fn pieces_stop_first()
    ensures { (s : Network NodeState) (es : List Entry) → Sound t414_ends s → ((line : ℕ) → markers (on_line s.lines line) ≡ 0)
        → (count : ℕ) (pieces : ℕ → Piece) (parts : ℕ → Network NodeState) → Covers count pieces → ((i : ℕ) → i < count → Agrees (pieces i) s (parts i))
        → (stops : ℕ → ℕ) → ((i : ℕ) → i < count → StopsAt t414 (pieces i) (parts i) es (stops i)) → IsLeastOf count stops (reach (next t414) s es) }
{}

/// If the whole network goes through all entries, each piece that agrees with it goes through them, too, and agrees with it at the end.
/// Pieces that agree with a network and have all its processes make that network when they are put together. So if each went through, they
/// make the network after the entries.
pub fn pieces_make_the_network()
    ensures each { (s t : Network NodeState) (es : List Entry) → after t414 s es ≡ Some t → (has : Piece) (part : Network NodeState) → Agrees has s part
        → (end : Network NodeState) × (after_by (next_in t414 has) part es ≡ Some end) × Agrees has t end }
    ensures joined { (count : ℕ) (pieces : ℕ → Piece) → Covers count pieces → (t w : Network NodeState) (ends : ℕ → Network NodeState) → ((i : ℕ) → i < count → Agrees (pieces i) t (ends i))
        → IsTogether count pieces ends w → w ≡ t }
    ensures whole { (s t w : Network NodeState) (es : List Entry) → after t414 s es ≡ Some t
        → (count : ℕ) (pieces : ℕ → Piece) (parts ends : ℕ → Network NodeState) → Covers count pieces → ((i : ℕ) → i < count → Agrees (pieces i) s (parts i))
        → ((i : ℕ) → i < count → after_by (next_in t414 (pieces i)) (parts i) es ≡ Some (ends i)) → IsTogether count pieces ends w → w ≡ t }
{}

/// Replaying rows stops where the entries that are read of them stop, with the fault of that row's place. If they don't stop before the
/// last row, all of them are replayed. Either no entry is read, or all numbers are below the limit, so there are fewer entries than that.
pub fn rows_stop_with_entries()
    ensures stop { (r : Replay NodeState) (rows : List (ℕ × List ℕ)) → RowsStop t414 r rows (readable r.form r.least r.next rows) (reach (next t414) r.now (bare (readable r.form r.least r.next rows))) }
    ensures few { (form : Form) (least next : ℕ) (rows : List (ℕ × List ℕ)) → (readable form least next rows ≡ []) ⊎ (next + length (readable form least next rows) < NUMBER_LIMIT) }
{}

/// In a sound network, entries stop at the first of two kinds. One is an entry that its process can't do with its own entries and their
/// tokens alone. The other names a token which isn't the next one on its line: one that the line had at first, or that an earlier entry of
/// the line's sender sent. So entries stop at or before the first Take of another token than its sender sent. If they don't stop, each
/// process by itself becomes what it is in the network, and what came on its lines is what entries took there and what is left.
pub fn tokens_come_from_senders()
    ensures fault { (s : Network NodeState) → Sound t414_ends s → (es : List Entry) → StopsAtFault t414 s es (reach (next t414) s es) }
    ensures take { (s : Network NodeState) → Sound t414_ends s → (xs ys : List Entry) (line : ℕ) (token : Token)
        → ((rest : List Token) → came t414 s line xs ≡ Some (named s line xs ++ token ∷ rest) → ⊥) → reach (next t414) s (xs ++ Take line token ∷ ys) ≤ length xs }
    ensures becomes { (s t : Network NodeState) → Sound t414_ends s → (es : List Entry) → after t414 s es ≡ Some t → (process : ℕ) → process ≤ length s.nodes → BecomesByItself t414 s process es t }
{}

/// If a row spells a Take of a token other than the one that came on its line, replaying the rows fails: at that row's place, or at an
/// earlier row's.
pub fn another_token_is_refused()
    ensures { (r : Replay NodeState) (rows : List (ℕ × List ℕ)) → Sound t414_ends r.now → (xs ys : List Entry) (line : ℕ) (token : Token)
        → bare (readable r.form r.least r.next rows) ≡ xs ++ Take line token ∷ ys
        → ((rest : List Token) → came t414 r.now line xs ≡ Some (named r.now line xs ++ token ∷ rest) → ⊥) → IsRefusedBy t414 r rows (length xs) }
{}
