//! The state that opening a device leaves.

use crate::cuts::cut::CutNetwork;
use crate::parts::NetParts;
use tp_model::Form;
use tp_net::Numbered;

/// What an opened device holds. Opening writes it once.
#[derive(Drop)]
pub struct NetState {
    /// The kept cut's network. It has no bytes: only contracts see it.
    pub cut: CutNetwork,
    /// The network after the kept entries.
    pub net: NetParts,
    /// How many entries the kept cut holds.
    pub base: u64,
    /// The form of the area that is open. Without a device the form has turns.
    pub form: Form,
    /// The entries after the kept cut, with their numbers.
    pub kept: Vec<Numbered>,
    /// The number that the next entry gets.
    pub next: u64,
    /// The generation of the kept cut.
    pub generation: u64,
    /// How many bytes each of the two areas has; `None` without a device.
    pub area: Option<u64>,
    /// Which area is open, 0 or 1.
    pub open_area: u8,
}
