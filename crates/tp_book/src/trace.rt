//! Values that only contracts see.

ghost use Rattle.std.specs.Prelude.{◌≡◌, ◌++◌, ◌∷◌, [], ℕ, Option, None, map, set, replicate};
ghost use Rattle.tp_book.specs.Lower.{ftrue, HostIn, NodeState};
ghost use Rattle.tp_book.specs.Seen.{Seen};

use std::marker::Model;
use tp_model::Entry;

/// What only contracts see of a book's snapshots: each node's frozen image once it has recorded, all entries since the book was opened, and
/// how many there were then. It has no bytes, and no call reads it.
#[derive(Drop)]
pub struct Trace {
    pub ghost seen: { Seen },
}

impl Model for Trace {
    ghost also_owns = { λ _. ftrue };
}

// It has no bytes and owns nothing.
unsafe impl Send for Trace {}

unsafe impl Sync for Trace {}

/// The image that a node records, which only contracts see.
#[derive(Drop)]
pub struct Image {
    pub ghost image: { Option NodeState },
}

impl Model for Image {
    ghost also_owns = { λ _. ftrue };
}

impl Image {
    /// Gives the ghost value `image`, which a contract names by what is lent as `_value`. It does nothing.
    pub fn of<T>(_value: &T) -> Image
        ghost image: { Option NodeState }
        ensures { result.image ≡ image }
    {
        Image {}
    }
}

impl Trace {
    /// Gives the ghost value `seen`, which a contract names by what is lent as `_value`. It does nothing.
    pub fn of<T>(_value: &T) -> Trace
        ghost seen: { Seen }
        ensures { result.seen ≡ seen }
    {
        Trace {}
    }

    /// Makes an empty trace of a book with `floor` entries.
    pub(crate) fn nothing(floor: usize) -> Trace
        ensures { result.seen ≡ record { frozen = []; history = []; floor = floor } }
    {
        Trace::of(&floor)
    }

    /// Adds an entry.
    pub(crate) fn with_entry(&self, entry: Entry) -> Trace
        ensures { result.seen ≡ record self.now.seen { history = self.now.seen.history ++ entry ∷ [] } }
    {
        let both = (self, entry);
        Trace::of(&both)
    }
    /// Adds an entry for each byte that was handed to a port.
    pub(crate) fn with_inputs(&self, port: u8, bytes: &[u8]) -> Trace
        ensures { result.seen ≡ record self.now.seen { history = self.now.seen.history ++ map (HostIn port) bytes.now } }
    {
        let all = (self, port, bytes);
        Trace::of(&all)
    }

    /// Begins to record `nodes` nodes, none of them frozen yet.
    pub(crate) fn unfrozen(&self, nodes: usize) -> Trace
        ensures { result.seen ≡ record self.now.seen { frozen = replicate nodes None } }
    {
        let both = (self, nodes);
        Trace::of(&both)
    }

    /// Adds the frozen image of a node.
    pub(crate) fn with_image(&self, node: u8, image: &Image) -> Trace
        ensures { result.seen ≡ record self.now.seen { frozen = set self.now.seen.frozen node image.now.image } }
    {
        let all = (self, node, image);
        Trace::of(&all)
    }

    /// Drops the frozen images, and counts no entry from before the book was opened.
    pub(crate) fn ended(&self) -> Trace
        ensures { result.seen ≡ record self.now.seen { frozen = []; floor = 0 } }
    {
        Trace::of(self)
    }
}
