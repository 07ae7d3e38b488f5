//! The fields and records of an area, as bytes.

pub(crate) mod end;
pub(crate) mod form;
pub(crate) mod front;
pub(crate) mod head;
pub(crate) mod images;
pub(crate) mod line;
pub(crate) mod numbers;
pub(crate) mod port;
pub(crate) mod version;
pub(crate) mod wires;
pub(crate) mod written;
