//! Laws that the calls need. The functions do nothing; their contracts are the laws.

ghost use Rattle.std.specs.Prelude.{◌≡◌, ◌<◌, ◌+◌, ◌*◌, ℕ, List, [], ◌++◌, length, false, true, Some, None, Ok, Err, IsSome, slice_get};
ghost use Rattle.tp_replay.specs.Lower.{Entry, Token, Link, Form, NodeState, next, is_marker, markers, Network, receiver, has_wire, on_line, is_first, t414, t414_ends, took, flights_in, Wired, Sound, AreCounted, OpenFault, Replay, after_rows, replay_from};
ghost use Rattle.tp_replay.specs.Flat.{IsFlat, EntryTakesByte};
ghost use Rattle.tp_replay.specs.History.{IsHistory};

/// Every entry keeps a flat network flat, if what it takes has data bytes below 256, and takes and sends no Marker. There a node can take
/// the token at the front of a line that goes to it, unless that is a Marker. Ports have always counted at most as much as there are
/// entries.
pub fn entries_keep_flat()
    ensures kept { (s t : Network NodeState) (e : Entry) → IsFlat s → EntryTakesByte e → next t414 s e ≡ Some t → IsFlat t }
    ensures marks { (s t : Network NodeState) (e : Entry) → IsFlat s → next t414 s e ≡ Some t → (line : ℕ) → markers (on_line t.lines line) ≡ markers (on_line s.lines line) }
    ensures fronts { (s : Network NodeState) → IsFlat s → (line i k : ℕ) (node : NodeState) (token : Token) → receiver s.wires line ≡ Some (Link i k) → slice_get s.nodes i ≡ Some node
        → is_marker token ≡ false → is_first (on_line s.lines line) token ≡ true → IsSome (took node k token) }
    ensures counted { (n : ℕ) (s t : Network NodeState) (e : Entry) → AreCounted n s.ports → next t414 s e ≡ Some t → AreCounted (n + 1) t.ports }
{}

/// What is replayed after a cut is a history. The kept entries lead from the cut's network to the one that is there, and their numbers
/// rise. The next entry's number counts them, and the area's form may hold each.
pub fn rows_are_history()
    ensures { (form : Form) (start : Network NodeState) (base : ℕ) (rows : List (ℕ × List ℕ)) (last : Replay NodeState) → after_rows t414 (replay_from form start base) rows ≡ Ok last → IsHistory t414 form start base last }
{}

/// A cut that passes opening's test of each line is sound, if its wires are wires and a line without one is empty.
pub fn cuts_are_sound()
    ensures { (s : Network NodeState) (at : ℕ) → Wired s → length s.wires ≡ length s.lines → length s.lines ≡ 4 * length s.nodes + length s.ports
        → ((line : ℕ) → has_wire s.wires line ≡ false → on_line s.lines line ≡ []) → flights_in t414_ends s at 0 (length s.lines) ≡ Ok tt → Sound t414_ends s }
{}

/// Rows may be replayed in parts, one after the other.
pub fn rows_in_parts()
    ensures on { (r now : Replay NodeState) (rows more : List (ℕ × List ℕ)) → after_rows t414 r rows ≡ Ok now → after_rows t414 r (rows ++ more) ≡ after_rows t414 now more }
    ensures fault { (r : Replay NodeState) (rows more : List (ℕ × List ℕ)) (fault : OpenFault) → after_rows t414 r rows ≡ Err fault → after_rows t414 r (rows ++ more) ≡ Err fault }
{}
