//! What is printed of a device and its nodes, as lines and as JSON.

pub(crate) mod done;
pub(crate) mod entries;
pub(crate) mod fields;
pub(crate) mod formats;
pub(crate) mod image_fields;
pub(crate) mod journal;
pub(crate) mod json;
pub(crate) mod json_maps;
pub(crate) mod json_port;
pub(crate) mod node_done;
pub(crate) mod parts;
pub(crate) mod registers;
pub(crate) mod shown;
pub(crate) mod status;
pub(crate) mod status_text;
pub(crate) mod time_of_day;
