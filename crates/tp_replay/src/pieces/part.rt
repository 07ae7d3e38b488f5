//! A part of a network.

ghost use Rattle.std.specs.Prelude.{◌≡◌, ◌<◌, ◌≤◌, ◌+◌, ℕ, IsTrue, MatchBool, MatchOption, Some, length};
ghost use Rattle.tp_replay.specs.Lower.{NodeState, Network, t414, Piece, next_in};
ghost use Rattle.tp_replay.specs.Blocked.{IsBlocked};
ghost use Rattle.tp_replay.specs.FirstNode.{HasNoNode, IsFirstNode};

use tp_model::Entry;

/// A part of a network: a piece, which is some of its processes and the lines that these send, with its state.
pub trait Part {
    /// Which processes it has.
    ghost has: { Self → Piece };

    /// The network with the part's processes and lines as they are now. Nothing else of it is ever read.
    ghost network: { Self → Network NodeState };

    /// With how many more entries it can go on, for its counters.
    ghost room: { Self → ℕ };

    /// Gives its first node; `None` if it has no node.
    fn first_node(&self) -> Option<u8>
        ensures { MatchOption result (HasNoNode (has self.now) (length (network self.now).nodes)) (λ node. IsFirstNode (has self.now) (length (network self.now).nodes) node) };

    /// Goes on with an entry of any process, and answers whether it could. After `false` nothing is known of the part.
    fn apply(&mut self, entry: &Entry) -> bool
        requires { 0 < room self.old }
        ensures has { has self.new ≡ has self.old }
        ensures goes { MatchBool result (next_in t414 (has self.old) (network self.old) entry.now ≡ Some (network self.new))
            (IsBlocked (has self.old) (network self.old) entry.now) }
        ensures room { IsTrue result → room self.old ≤ room self.new + 1 };
}
