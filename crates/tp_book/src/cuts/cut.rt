//! The kept cut's network, which only contracts see.

ghost use Rattle.std.specs.Prelude.{◌≡◌};
ghost use Rattle.tp_book.specs.Lower.{ftrue, NodeState, Network};

use crate::parts::NetParts;
use std::marker::Model;

/// The network of a kept cut. It has no bytes: only contracts see it, and no call reads it.
#[derive(Drop)]
pub struct CutNetwork {
    pub ghost network: { Network NodeState },
}

impl Model for CutNetwork {
    ghost also_owns = { λ _. ftrue };
}

// It has no bytes and owns nothing.
unsafe impl Send for CutNetwork {}

unsafe impl Sync for CutNetwork {}

impl CutNetwork {
    ghost use Rattle.tp_book.specs.Parts.{network_made};

    /// Gives the ghost value `network`, which a contract names by what is lent as `_value`. It does nothing.
    pub fn of<T>(_value: &T) -> CutNetwork
        ghost network: { Network NodeState }
        ensures { result.network ≡ network }
    {
        CutNetwork {}
    }

    /// Gives the network of `parts`.
    pub fn of_parts(parts: &NetParts) -> CutNetwork
        ensures { result.network ≡ network_made parts.now }
    {
        CutNetwork::of(parts)
    }

    /// Makes another value that names this network.
    pub fn again(&self) -> CutNetwork
        ensures { result.network ≡ self.now.network }
    {
        CutNetwork::of(self)
    }
}
