//! What a run is asked.

/// How to run a device's network.
#[derive(Clone, Copy)]
pub struct Job {
    /// How many turns all workers make together. A refused turn counts, too. A worker makes no more turns after one that was refused since the store
    /// has failed.
    pub turns: u32,
    /// How many threads make turns, 1 to [`MAX_WORKERS`].
    pub workers: u8,
    /// How many steps a turn may run, 1 to 4,096.
    pub quantum: u16,
    /// How many spare frames each node has, for pages that it writes while it is frozen; at most as many as the node has pages.
    pub spare: u16,
    /// How many entries since the kept cut begin a snapshot. `None` stands for half of the entries that a journal takes, and at least one.
    pub every: Option<u32>,
    /// The port that input goes to and output comes from.
    pub port: u8,
}
