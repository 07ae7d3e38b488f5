//! The steps of a turn of the flusher.

pub(crate) mod appending;
pub(crate) mod checkpoint;
pub(crate) mod copying;
pub(crate) mod dropping;
pub(crate) mod images;
pub(crate) mod pieces;
pub(crate) mod raising;
pub(crate) mod snapshot;
pub(crate) mod switching;
pub(crate) mod telling;
