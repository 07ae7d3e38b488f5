//! The order of a network's entries: which may be swapped, and what a cut of them leads to. The functions do nothing; their contracts are
//! laws of networks of this machine's nodes.
#![tactic(auto)]

mod all_runs;
mod by_parts;
mod whole_cuts;

ghost use Rattle.std.specs.Prelude.{◌≡◌, ◌≤◌, ◌+◌, ℕ, List, Some, length, slice_get};
ghost use Rattle.tp_law_network.specs.Lower.{count_by, Token, Entry, Turn, Received, NodeState, Network, Port, steps, on_line, next, after, accepted, came_out, is_input, is_output, Sound, datas, acks, markers, t414, t414_ends};
ghost use Rattle.tp_law_network.specs.Turns.{IsFront, entries_of_turn};

pub use all_runs::{
    areas_can_hold, crashes_hold, every_run_holds, store_calls_walk, walks_recover,
};
pub use by_parts::{
    another_token_is_refused, pieces_make_the_network, pieces_stop_first, rows_stop_with_entries,
    tokens_come_from_senders,
};
pub use whole_cuts::{
    cuts_hold, halves_join, reserved_turns_stay, swaps_agree, turns_join, whole_cuts_stay,
};

/// Every entry keeps a sound network sound. In a sound network, a line has at most one Data and one Ack besides its Markers.
pub fn entries_keep_soundness()
    ensures kept { (s t : Network NodeState) (e : Entry) → Sound t414_ends s → next t414 s e ≡ Some t → Sound t414_ends t }
    ensures single { (s : Network NodeState) → Sound t414_ends s → (line : ℕ) → (datas (on_line s.lines line) ≤ 1) × (acks (on_line s.lines line) ≤ 1) }
    ensures room { (s : Network NodeState) → Sound t414_ends s → (line : ℕ) → length (on_line s.lines line) ≤ 2 + markers (on_line s.lines line) }
{}

/// However many steps a run has, it sends at most eight tokens: a Data and an Ack on each link.
pub fn runs_send_few()
    ensures { (count : ℕ) (node : NodeState) (last : NodeState × List (ℕ × Token)) → steps t414 count node ≡ Some last → length last.1 ≤ 8 }
{}

/// A port's accepted number is how many bytes the host handed to it, and its output number how many bytes it took. After any entries each
/// has grown by the entries of its kind.
pub fn ports_count_entries()
    ensures { (s t : Network NodeState) (es : List Entry) → after t414 s es ≡ Some t → (p : ℕ) (port : Port) → slice_get s.ports p ≡ Some port
        → (later : Port) × (slice_get t.ports p ≡ Some later)
        × (accepted later ≡ accepted port + count_by (is_input p) es) × (came_out later ≡ came_out port + count_by (is_output s.wires p) es) }
{}

/// A turn as one entry is its takes, links in order, and then its run. It leads where they lead. It is possible exactly if they are
/// possible one after the other and its tokens are already at the fronts of their lines.
pub fn turns_are_entries()
    ensures leads { (s t : Network NodeState) (i : ℕ) (takes : List Received) (count : ℕ) → next t414 s (Turn i takes count) ≡ Some t → after t414 s (entries_of_turn s i takes count) ≡ Some t }
    ensures possible { (s t : Network NodeState) (i : ℕ) (takes : List Received) (count : ℕ) → IsFront s i takes count → after t414 s (entries_of_turn s i takes count) ≡ Some t → next t414 s (Turn i takes count) ≡ Some t }
    ensures fronts { (s t : Network NodeState) (i : ℕ) (takes : List Received) (count : ℕ) → next t414 s (Turn i takes count) ≡ Some t → IsFront s i takes count }
{}
