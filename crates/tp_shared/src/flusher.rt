//! What the flusher is told, and what it copies.

pub(crate) mod agreeing;
pub(crate) mod backlog;
pub(crate) mod copies;
pub(crate) mod handed;
pub(crate) mod pieces;
pub(crate) mod shared_pieces;
pub(crate) mod tail;
pub(crate) mod tell;
pub(crate) mod told;
