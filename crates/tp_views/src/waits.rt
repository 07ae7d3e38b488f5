//! Who waits for whom in a network.

pub(crate) mod cycles;
pub(crate) mod dot_waits;
pub(crate) mod inside;
pub(crate) mod json_waits;
pub(crate) mod scene;
pub(crate) mod since;
pub(crate) mod steady_waits;
pub(crate) mod sums;
pub(crate) mod wait_lines;
pub(crate) mod waiting;
pub(crate) mod why;
