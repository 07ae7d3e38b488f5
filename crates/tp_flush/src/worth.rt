//! What the flusher knows, compared with the book and with what threads hold.

pub(crate) mod agreeing;
pub(crate) mod settle;
pub(crate) mod settle_all;
pub(crate) mod settle_host;
