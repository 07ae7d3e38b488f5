//! What a stream is asked.

ghost use Rattle.std.specs.Prelude.{◌≡◌, ◌||◌};

/// How to run a device's network, and when the stream ends.
#[derive(Clone, Copy)]
pub struct Task {
    /// How many turns are made at most; `None` sets no bound. A refused turn counts. A turn that only settles doesn't.
    pub turns: Option<u32>,
    /// Whether the stream ends once nothing is left to do: no node has a step, no line has a token that can be taken, and no port has room for input
    /// that is left.
    pub until_quiet: bool,
    /// Whether the stream ends once a node has halted.
    pub stop_on_halt: bool,
    /// Whether the stream ends once it is asked to stop. It checks that after the flush of each cycle, and while it waits for input.
    pub until_asked: bool,
    /// How many threads make turns at most: 1 to 16, and no more than there are processes. With 1 the calling thread does everything. With more the
    /// calling thread is one of them, and makes the flusher's turns between its own.
    pub workers: u8,
    /// How many steps a turn may run, 1 to 4,096.
    pub quantum: u16,
    /// How many spare frames each node has, for pages that it writes while it is frozen; at most as many as the node has pages.
    pub spare: u16,
    /// At how many entries since the kept cut a snapshot begins: at least 1, and at most as many as fill half of the journal. `None` stands for that
    /// half.
    pub every: Option<u32>,
    /// Whether the stream tells how far it has come: after the flush of each cycle, and while it waits for input.
    pub tells: bool,
}

impl Task {
    /// Whether the stream rests while it waits for input, because it has something else to do meanwhile: to check whether it is asked to stop, or to
    /// tell how far it has come.
    pub(crate) fn rests(self) -> bool
        ensures { result ≡ (self.until_asked || self.tells) }
    {
        self.until_asked || self.tells
    }
}
