//! Which processes a part has, and which node is at an end.

ghost use Rattle.std.specs.Prelude.{◌≡◌, ◌<◌, ◌≤◌, ◌+◌, ℕ, MatchBool, MatchOption, Some, false};
ghost use Rattle.tp_model.specs.declared.wire.WireEnd.TheVariants.{Link};
ghost use Rattle.tp_replay.specs.Whose.{whose};

use tp_model::WireEnd;

/// Gives the place of node `number` among `len` neighbours that begin with node `first`; `None` if it is none of them.
pub(crate) fn place(first: usize, len: usize, number: u8) -> Option<usize>
    requires { first + len ≤ 1024 }
    ensures { MatchOption result (whose first (Some (first + len)) number ≡ false) (λ i. (number ≡ first + i) × (i < len)) }
{
    let number = usize::from(number);
    if number < first || number >= first + len {
        return None;
    }
    Some(number - first)
}

/// Gives the node and the link at an end of a wire; `None` if no node has it.
pub(crate) fn link_at(end: Option<WireEnd>) -> Option<(u8, u8)>
    ensures { MatchOption result ((node link : ℕ) → end ≡ Some (Link node link) → ⊥) (λ at. end ≡ Some (Link at.0 at.1)) }
{
    match end {
        Some(WireEnd::Link(node, link)) => Some((node, link)),
        Some(WireEnd::Port(_)) | None => None,
    }
}

/// Whether a node of this number is among `count` nodes.
pub(crate) fn is_there(node: u8, count: usize) -> bool
    ensures { MatchBool result (node < count) (count ≤ node) }
{
    usize::from(node) < count
}
