//! Which files the standard streams are. The caller says that: on a system without `/dev/stdout` no path does.

use crate::same::FileNumbers;

/// A standard stream of the process.
#[derive(Clone, Copy, PartialEq, Eq)]
pub enum StandardStream {
    In,
    Out,
    Error,
}

/// What a standard stream comes from or goes to.
#[derive(Clone, Copy)]
pub struct StandardFile {
    /// The numbers by which the system tells it from all other files; `None` if it tells none.
    pub numbers: Option<FileNumbers>,
    /// Whether it is a regular file, rather than a terminal, a pipe or a disk.
    pub is_regular: bool,
}

/// What says which files the standard streams are.
pub trait StandardStreams {
    /// What a stream comes from or goes to.
    fn behind(&self, stream: StandardStream) -> StandardFile;
}

/// The numbers of the regular file that a standard stream comes from or goes to; `None` for a terminal or a pipe.
pub(crate) fn regular_behind<R: StandardStreams>(
    rt: &R,
    stream: StandardStream,
) -> Option<FileNumbers> {
    let file = rt.behind(stream);
    if file.is_regular { file.numbers } else { None }
}
