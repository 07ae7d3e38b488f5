//! Cuts: markers, the snapshot that runs, and what it has gathered.

pub(crate) mod cut;
pub(crate) mod markers;
pub(crate) mod marking;
pub(crate) mod running;
pub(crate) mod snap_cut;
pub(crate) mod snapshot;
pub(crate) mod snapshots;
