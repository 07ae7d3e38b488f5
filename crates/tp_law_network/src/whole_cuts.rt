//! Marker snapshots: what a whole cut is, whatever a book, its nodes and their markers did before it. The functions do
//! nothing; their contracts are the laws.

ghost use Rattle.std.specs.Prelude.{◌≡◌, ◌<◌, ◌++◌, ℕ, true, false, List, [], length, set, replicate, Option, Some, None, slice_get};
ghost use Rattle.tp_law_network.specs.Lower.{AllByRecursion, Token, Marker, Entry, NodeState, t414, Network, Own, Port, OfHost, OfNode, is_first, on_line, taken, does, next, process, takes, after, AreIndependent, Reorder, post, pre, has_marker, plain_network, MarkedNetwork, Snapshot, has_recorded, taker, WholeCut, all_some, count_in, whole, IsWhole, Act, Begin, Close, Journal, Record, Trim, acted, happens, IsOpened, CutHolds, BookState, marked, whole_in, with_begin, with_close, with_close_over, with_half, with_record, with_trim, HasCut, is_trim, Received};
ghost use Rattle.tp_law_network.specs.Reserved.{MayBeMade, IsOfOthers, HasTurned, IsNotOf, IsReceived, turn_acts, with_turn};

/// Two neighbours that are independent may be swapped, and lead to one network. So do all orders that come from one another by such swaps.
pub fn swaps_agree()
    ensures swap { (s : Network NodeState) (e f : Entry) → (i : AreIndependent t414 s e f)
        → (next t414 s f ≡ Some i.other) × (next t414 i.other e ≡ Some i.last) }
    ensures reorder { (s : Network NodeState) (es fs : List Entry) → Reorder t414 s es fs → after t414 s es ≡ after t414 s fs }
{}

/// Whatever a book, its nodes and their markers do after it was opened, a whole cut is the network after the entries in it, and those may
/// come first. There is a whole cut exactly if a snapshot runs, all have recorded, and the Marker of each line that has a wire was taken.
/// The book's entries lead to the network as it is without its Markers, in their own order and in that of a whole cut.
pub fn cuts_hold()
    ensures cut { (w v : MarkedNetwork NodeState) → IsOpened t414 w → (acts : List Act) → acted t414 w acts ≡ Some v
        → (cut : WholeCut) → whole v ≡ Some cut → CutHolds t414 v cut }
    ensures whole { (w v : MarkedNetwork NodeState) → IsOpened t414 w → (acts : List Act) → acted t414 w acts ≡ Some v
        → ((cut : WholeCut) → whole v ≡ Some cut → IsWhole v) × (IsWhole v → (cut : WholeCut) × (whole v ≡ Some cut)) }
    ensures leads { (w v : MarkedNetwork NodeState) → IsOpened t414 w → (acts : List Act) → acted t414 w acts ≡ Some v
        → after t414 v.start v.entries ≡ Some (plain_network v.live) }
    ensures both { (w v : MarkedNetwork NodeState) → IsOpened t414 w → (acts : List Act) → acted t414 w acts ≡ Some v
        → (cut : WholeCut) → whole v ≡ Some cut
        → after t414 v.start (pre (process v.start.wires (length v.start.nodes)) (count_in cut) v.entries ++ post (process v.start.wires (length v.start.nodes)) (count_in cut) v.entries) ≡ Some (plain_network v.live) }
{}

/// A whole cut stays whole until the book is trimmed to it: whatever acts come before, neither the cut nor its frozen nodes change.
pub fn whole_cuts_stay()
    ensures { (w v u : MarkedNetwork NodeState) → IsOpened t414 w → (acts : List Act) → acted t414 w acts ≡ Some v
        → (cut : WholeCut) (nodes : List NodeState) → HasCut v cut nodes
        → (more : List Act) → AllByRecursion (λ act. is_trim act ≡ false) more → acted t414 v more ≡ Some u → HasCut u cut nodes }
{}

/// What is done of an act under a node's lock and what is done under the book's lock are together the act. The acts are an entry of a node,
/// an entry of the host, a beginning, a recording, a Marker taken from the front or from after other tokens, and a trim. The book alone
/// finds the whole cut.
pub fn halves_join()
    ensures node { (b : BookState NodeState) (nodes : List NodeState) (frozen : List (Option NodeState)) → length nodes ≡ length b.start.nodes
        → (e : Entry) (n changed : NodeState) (sends : List (ℕ × Token)) (out : List (List Token))
        → slice_get nodes (process b.start.wires (length b.start.nodes) e) ≡ Some n → taken b.lines (takes b.start.wires (length b.start.nodes) e) ≡ Some out
        → does t414 b.start.wires (length nodes) e (OfNode n) ≡ Some (OfNode changed, sends)
        → happens t414 (marked b nodes frozen) (Journal e) ≡ Some (marked (with_half b e b.ports sends) (set nodes (process b.start.wires (length b.start.nodes) e) changed) frozen) }
    ensures host { (b : BookState NodeState) (nodes : List NodeState) (frozen : List (Option NodeState)) → length nodes ≡ length b.start.nodes
        → (e : Entry) (ports : List Port) (sends : List (ℕ × Token)) (out : List (List Token))
        → process b.start.wires (length b.start.nodes) e ≡ length nodes → taken b.lines (takes b.start.wires (length b.start.nodes) e) ≡ Some out
        → does t414 b.start.wires (length nodes) e (OfHost b.ports) ≡ Some (OfHost ports, sends)
        → happens t414 (marked b nodes frozen) (Journal e) ≡ Some (marked (with_half b e ports sends) nodes frozen) }
    ensures begins { (b : BookState NodeState) (nodes : List NodeState) (frozen : List (Option NodeState)) → length nodes ≡ length b.start.nodes
        → b.snapshot ≡ None → happens t414 (marked b nodes frozen) Begin ≡ Some (marked (with_begin b) nodes (replicate (length nodes) None)) }
    ensures records { (b : BookState NodeState) (nodes : List NodeState) (frozen : List (Option NodeState)) → length nodes ≡ length b.start.nodes
        → (snap : Snapshot) (i : ℕ) → b.snapshot ≡ Some snap → i < length nodes → has_recorded snap i ≡ false
        → happens t414 (marked b nodes frozen) (Record i) ≡ Some (marked (with_record b snap i) nodes (set frozen i (slice_get nodes i))) }
    ensures closes { (b : BookState NodeState) (nodes : List NodeState) (frozen : List (Option NodeState)) → length nodes ≡ length b.start.nodes
        → (snap : Snapshot) (line : ℕ) → b.snapshot ≡ Some snap → is_first (on_line b.lines line) Marker ≡ true → has_recorded snap (taker b.start line) ≡ true
        → happens t414 (marked b nodes frozen) (Close line) ≡ Some (marked (with_close b snap line) nodes frozen) }
    ensures closes_over { (b : BookState NodeState) (nodes : List NodeState) (frozen : List (Option NodeState)) → length nodes ≡ length b.start.nodes
        → (snap : Snapshot) (line : ℕ) → b.snapshot ≡ Some snap → has_marker (on_line b.lines line) ≡ true → has_recorded snap (taker b.start line) ≡ true
        → happens t414 (marked b nodes frozen) (Close line) ≡ Some (marked (with_close_over b snap line) nodes frozen) }
    ensures trims { (b : BookState NodeState) (nodes : List NodeState) (frozen : List (Option NodeState)) → length nodes ≡ length b.start.nodes
        → (cut : WholeCut) (images : List NodeState) → whole_in b ≡ Some cut → all_some frozen ≡ Some images
        → happens t414 (marked b nodes frozen) Trim ≡ Some (marked (with_trim b cut images) nodes []) }
    ensures whole { (b : BookState NodeState) (nodes : List NodeState) (frozen : List (Option NodeState)) → length nodes ≡ length b.start.nodes
        → whole (marked b nodes frozen) ≡ whole_in b }
{}

/// What a process has done under its own lock can still be journalled, unchanged, whatever others have done to the book in between. No
/// entry of theirs, no beginning, recording, closing or trim takes a token from the front of its lines.
pub fn reserved_turns_stay()
    ensures received { (w v : MarkedNetwork NodeState) (acts : List Act) → acted t414 w acts ≡ Some v
        → (node : ℕ) (takes : List Received) → AllByRecursion (IsNotOf w.live node) acts → IsReceived w.live node takes → IsReceived v.live node takes }
    ensures same { (w v : MarkedNetwork NodeState) (acts : List Act) → acted t414 w acts ≡ Some v
        → (e : Entry) (was now : Own NodeState) (sends : List (ℕ × Token)) → AllByRecursion (IsOfOthers w.live e) acts
        → MayBeMade t414 w.live e was now sends → MayBeMade t414 v.live e was now sends }
{}

/// A turn's act is one entry, or none. It has two parts: what a node did in the turn under its lock, from the tokens that it took on, and
/// what the book does at the commit.
pub fn turns_join()
    ensures { (b : BookState NodeState) (nodes : List NodeState) (frozen : List (Option NodeState)) → length nodes ≡ length b.start.nodes
        → (node : ℕ) (takes : List Received) (count : ℕ) (before after : NodeState) (tokens : List (ℕ × Token)) → slice_get nodes node ≡ Some before
        → HasTurned t414 b node takes count tokens before after
        → acted t414 (marked b nodes frozen) (turn_acts node takes count) ≡ Some (marked (with_turn b node takes count tokens) (set nodes node after) frozen) }
{}
