//! Which network is meant.

ghost use Rattle.std.specs.Prelude.{ℕ, [], Option, None};
ghost use Rattle.tp_shared.specs.Lower.{MarkName, NodeState, Network, World, fresh, Resting};

use std::marker::Brand;

/// The network, tokens, mark and history of all that is under locks. Each call of a program picks it.
pub trait Naming {
    /// The name of the roll of all entries.
    ghost roll: { ℕ };

    /// The number of the first entry after the opening.
    ghost first: { ℕ };

    /// A network with the wires, and the numbers of nodes and ports, of this one.
    ghost start: { Network NodeState };

    /// The name of each node's twin.
    ghost node: { ℕ → ℕ };

    /// The durable mark.
    ghost mark: { MarkName };

    /// The name of the twin of what the flusher is told of the book.
    ghost flusher: { ℕ };

    /// The name of the twin of what the host has handed in.
    ghost host: { ℕ };

    /// The name of the roll of what is seen of the book under its lock.
    ghost sights: { ℕ };

    /// The bytes that groups may fill in an area of the device; `None` without a device.
    ghost room: { Option ℕ };

    /// How many bytes each port had accepted before the first entry.
    ghost accepted: { ℕ → ℕ };

    /// The network of the images with which the device was formatted.
    ghost formatted: { Network NodeState };

    /// The world before this process opened the device.
    ghost before: { World NodeState };
}

impl Naming for Brand {
    ghost roll = { 0 };

    ghost first = { 0 };

    ghost start = { record { wires = []; nodes = []; ports = []; lines = [] } };

    ghost node = { λ i. i };

    ghost mark = { record { words = 1; slots = 0; views_name = 0; atom = 0; block = 0; offset = 0; slot_names = [] } };

    ghost flusher = { 0 };

    ghost host = { 0 };

    ghost sights = { 0 };

    ghost room = { None };

    ghost accepted = { λ p. 0 };

    ghost formatted = { record { wires = []; nodes = []; ports = []; lines = [] } };

    ghost before = { record { net = fresh (record { wires = []; nodes = []; ports = []; lines = [] }); base = 0; journal = []; disk = record { bytes = []; unsynced = [] }; at = Resting; backlog = []; stored = 0; mark = 0; seen = [] } };
}
