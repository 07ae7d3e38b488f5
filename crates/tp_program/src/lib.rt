//! What the program does for the words of its command line: commands that write a device, over any device, and all commands on files.
#![tactic(auto)]

mod asking;
mod asking_explain;
mod backing_up;
mod backup_explain;
mod backup_files;
mod backup_program;
mod compact_file;
mod compacting;
mod device_calls;
mod devices;
mod files;
mod folders;
mod format_file;
mod formatting;
mod holding;
mod in_use;
mod locks;
mod map_texts;
mod media;
mod numbers;
mod opening_again;
mod program;
mod request_file;
mod rights;
mod run_file;
mod running;
mod stop_file;
mod stream_explain;
mod stream_program;
mod streaming;
mod trace_files;
mod trying;
mod unspelt;
mod watching;

pub use asking::{Unasked, Unmade};
pub use backing_up::backup_on;
pub use backup_files::Undone;
pub use compacting::compact_on;
pub use devices::{Devices, FileDevices, Made};
pub use formatting::format_on;
pub use holding::{Found, found_at, hold_file, hold_made, is_held, is_kept};
pub use in_use::refuse_in_use;
pub use locks::{Held, Locks};
pub use numbers::{millis_of, processors_of, seconds_in, time_of};
pub use program::answer_over;
pub use rights::Rights;
pub use running::run_on;
pub use stop_file::StopFault;
pub use streaming::{FilesFault, Streamed, stream_on};
pub use tp_views::{
    NodeMaps, Seen, TRY_QUANTUM, check_on, is_openable, recover_on, show_on, status_on,
    trace_device_on, trace_on, try_on, view_on,
};
pub use tp_words::{
    ArgFault, Asked, Backup, Command, CommandFault, CommandLine, EndsFault, JournalPart, NewDevice,
    Run, StopRequest, StreamRun, TracePart, View,
};
pub use trying::{InUse, Tries, lock_file, lock_made};
pub use unspelt::words_refusal;
pub use watching::Watch;
