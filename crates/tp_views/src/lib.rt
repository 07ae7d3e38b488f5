//! The commands that write no device: what they print, and what they say of a refusal. They work on any device and any two writers.
#![tactic(auto)]

mod areas;
mod by_workers;
mod checking;
mod commands;
mod explanations;
mod map_files;
mod maps;
mod node_maps;
mod openable;
mod opening;
mod refusal;
mod steady;
mod steady_before;
mod stopped;
mod telling;
mod text;
mod trace;
mod view;
mod waits;

pub use areas::wanted_area;
pub use checking::check_on;
pub use commands::{TRY_QUANTUM, print_help, put, refuse, try_on};
pub use explanations::explaining::explain;
pub use explanations::looking::{is_regular, is_special, push_error, push_file};
pub use explanations::reopening::push_opening;
pub use map_files::map_path;
pub use maps::{MapFault, MapRow, address_of, push_spot, read_map};
pub use node_maps::{NodeMaps, read_maps, read_rows};
pub use openable::is_openable;
pub use opening::{recover_on, show_on};
pub use refusal::{MapFile, Refusal};
pub use stopped::tell_halted;
pub use telling::status_on;
pub use text::json_maps::push_spot_fields;
pub use text::status::{PortSeen, Seen};
pub use trace::placing::stops_at;
pub use trace::stops::{Range, Stops};
pub use trace::tracing::trace_on;
pub use trace::tracing_device::trace_device_on;
pub use view::view_on;
pub use waits::inside::{has_inside, tell_inside};
