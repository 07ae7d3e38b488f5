//! Streams: a device's network runs, and its ports write to sinks and read from sources meanwhile.
#![tactic(auto)]

mod accounting;
mod beginning;
mod beside;
mod crew;
mod endings;
mod fault;
mod flushing;
mod ground;
mod input;
mod leading;
mod left;
mod lent;
mod opening;
mod output;
mod pace;
mod pumping;
mod rooms;
mod rounds;
mod serving;
mod settling;
mod shift;
mod standing;
mod stopping;
mod streaming;
mod taker;
mod task;
mod telling;
mod turns;

pub use fault::StreamFault;
pub use streaming::stream;
pub use taker::Taker;
pub use task::Task;
pub use tp_stream_files::{
    Ended, Ending, Input, Listener, MemSink, Noted, Output, Progress, PutAt, Sink, SinkFault,
    Source, SourceFailed, Stop, Stopped, Streams,
};
