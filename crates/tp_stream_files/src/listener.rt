//! What is told of a stream while it runs.

ghost use Rattle.std.specs.Prelude.{List, [], ◌∷◌, Option, None};
ghost use Rattle.tp_stream_files.specs.Notices.{Notice, OutputBegins, InputBegins, HasCome, NodeStopped, Noticed};

use crate::ending::Stopped;
use tp_model::limits::MAX_PORTS;

/// How far a stream has come.
#[derive(Clone, Copy)]
pub struct Progress {
    /// The number that the next entry gets.
    pub next: u64,
    /// The durable mark.
    pub mark: u64,
    /// How much of the journal is in use, in percent.
    pub used: u64,
    /// The generation of the open area.
    pub generation: u64,
    /// How many turns were made, including refused ones.
    pub turns: u64,
    /// Up to which position each port's outputs were put; `None` if no sink is for it.
    pub put: [Option<u64>; MAX_PORTS],
}

/// Is told how far a stream has come.
pub trait Listener {
    /// What it was told, the oldest first, if that is known.
    ghost told: { Self → Option (List Notice) } = { λ _. None };

    /// Hears that the first byte that is put of a port's output has this position.
    fn output(&mut self, port: u8, position: u64)
        ensures { Noticed (OutputBegins port position ∷ []) (told self.old) (told self.new) };

    /// Hears that a port has accepted the bytes of its input up to `accepted`.
    fn input(&mut self, port: u8, accepted: u64)
        ensures { Noticed (InputBegins port accepted ∷ []) (told self.old) (told self.new) };

    /// Hears how far the stream has come. If the task asks for that, it comes after the flush of each cycle, and while input is awaited.
    fn progress(&mut self, progress: Progress)
        ensures told { Noticed (HasCome progress ∷ []) (told self.old) (told self.new) };

    /// Hears why a node does nothing at the end: it has halted, or it waits though a port has input that no node has taken. Nodes come in order.
    fn stopped(&mut self, node: u8, how: Stopped)
        ensures { Noticed (NodeStopped node how ∷ []) (told self.old) (told self.new) };
}
