//! What `trace` prints of a node, and where it stops.

pub(crate) mod placing;
pub(crate) mod stops;
pub(crate) mod tracing;
pub(crate) mod tracing_device;
pub(crate) mod tracing_entries;
pub(crate) mod tracing_lines;
