//! Opening a device: its head, the choice of an area, the cut, and the groups after it. And a copy of a device that was opened.
#![tactic(auto)]

mod area;
mod before;
mod copy;
mod journal;
mod left;
mod opening;
mod parallel;
mod reading;
mod roomy;
mod state;
mod store;
mod unopened;

pub use area::choice::read_choice;
pub use area::cut::{Cut, read_cut};
pub use area::front::read_front;
pub use area::head::read_head;
pub use before::open_before;
pub use copy::copying::{Copied, copy_opened};
pub use copy::fault::CopyFault;
pub use journal::ahead::read_rows;
pub use journal::groups::replay_area;
pub use journal::rows::Rows;
pub use left::entries_left;
pub use opening::{Opened, open};
pub use parallel::open_parallel;
pub use reading::asked::AreaAsked;
pub use roomy::books_find_room;
pub use store::open_store;
pub use tp_law_device::{crashes_hold, every_run_holds};
pub use unopened::Unopened;
