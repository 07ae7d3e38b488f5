//! The words of the command line, and what they ask for.
#![tactic(auto)]

mod arg_fault;
mod args;
mod backup_args;
mod command;
mod device_args;
mod explaining;
mod forms;
mod found;
mod help;
mod journal_args;
mod line;
mod numbers;
mod parsing;
mod reading;
mod rows;
mod rules;
mod shown;
mod sizes;
mod stop_args;
mod stream_args;
mod stream_ends;
mod stream_words;
mod trace_args;
mod view_args;
mod views;
mod words;

pub use arg_fault::ArgFault;
pub use args::{Asked, MAX_AREA, MAX_WORKERS, NewDevice, Run};
pub use backup_args::Backup;
pub use command::{Command, CommandFault, CommandLine};
pub use explaining::{Explaining, More};
pub use shown::Shown;
pub use stop_args::StopRequest;
pub use stream_args::StreamRun;
pub use stream_ends::{EndsFault, FileOption};
pub use trace_args::{ImageTrace, TraceLines};
pub use views::{JournalPart, TracePart, View};
