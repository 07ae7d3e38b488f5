//! The sinks and sources of a stream.

use crate::input::Input;
use crate::output::Output;
use crate::sink::Sink;
use crate::source::Source;

/// The outputs of a stream with their sinks, and its inputs with their sources.
#[derive(Drop)]
pub struct Streams<S: Sink, I: Source> {
    pub outputs: Vec<Output<S>>,
    pub inputs: Vec<Input<I>>,
}
