//! The bytes of a device other than entries, and the store on it: its two areas, and the calls that write them.
#![tactic(auto)]

mod area;
mod calls;
mod encoding;
mod fault;
pub mod head_places;
mod journal;
mod laws;
mod layout_place;
mod place;
mod rights;
mod room;
mod store;

pub use area::{area_for, fits};
pub use calls::copy::put_copied;
pub use calls::formatting::format;
pub use encoding::front::{
    AREA_FRONT_BYTES, AreaFront, CutFront, FIELDS_BYTES, area_front, cut_front, put_fields,
};
pub use encoding::head::{Head, head_bytes, head_in, head_version};
pub use encoding::line::{LINES_BYTES, LineTokens, line_in, lines_bytes};
pub use encoding::port::{PortRecord, port_in};
pub use encoding::version::{head_length, keeps_limits, version_for};
pub use fault::{FormatFault, StoreFault};
pub use journal::{JournalRoom, journal_room, reserve};
pub use laws::{
    checkpoints_walk, entries_with_room_fit, open_devices_say_their_place,
    resting_devices_open_alike,
};
pub use layout_place::{Places, area_start, areas_of_length, piece_place};
pub use place::Place;
pub use room::{cut_length, image_length, images_length, records_length};
pub use store::Store;
