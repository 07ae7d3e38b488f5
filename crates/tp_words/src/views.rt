//! What is shown of a device.

/// What is shown of a device that opens: a node's registers, a node's image, a part of the kept entries, and the bytes of a port that are pending or
/// not confirmed; the first of these and the last two as JSON; and who waits for whom, as lines, as JSON and as a graph.
#[derive(Clone, Copy)]
pub enum View {
    Node(u64),
    Image(u64),
    Journal(JournalPart),
    Pending(u64),
    Outputs(u64),
    NodeJson(u64),
    PendingJson(u64),
    OutputsJson(u64),
    Waits,
    WaitsJson,
    WaitsDot,
}

/// The part of the kept entries that is shown: those whose number is `from` or more and `to` or less, that node `node` made, and of these
/// the last `last`. An option that isn't given leaves none out. `json`: as JSON.
#[derive(Clone, Copy)]
pub struct JournalPart {
    pub from: u64,
    pub to: Option<u64>,
    pub node: Option<u64>,
    pub last: Option<u64>,
    pub json: bool,
}

/// The steps of a device's node that are shown: those that its entries made whose number is `from` or more and `to` or less. `None`: up to
/// the last one.
#[derive(Clone, Copy)]
pub struct TracePart {
    pub node: u64,
    pub from: u64,
    pub to: Option<u64>,
}
