//! How far the copy of a snapshot has come.

ghost use Rattle.std.specs.Prelude.{◌≡◌, ◌<◌, true};
ghost use Rattle.tp_model.specs.declared.limits.TheConstants.{MAX_NODES};
ghost use Rattle.tp_flush.specs.Progress.{is_out, not_begun, with_out};

use tp_model::limits::MAX_NODES;

/// Whether the other area's gate was closed for the snapshot that runs, and for each node whether all pieces of its frozen image are
/// in that area.
#[derive(Clone, Copy)]
pub struct Progress {
    pub cleared: bool,
    pub out: [bool; MAX_NODES],
}

impl Progress {
    /// Makes the progress of a copy that hasn't begun.
    pub(crate) fn new() -> Progress
        ensures { result ≡ not_begun }
    {
        Progress {
            cleared: false,
            out: [false; MAX_NODES],
        }
    }

    /// Whether the image of `node` is out.
    pub(crate) fn is_out(&self, node: usize) -> bool
        requires { node < MAX_NODES }
        ensures { result ≡ is_out self.now node }
    {
        self.out[node]
    }

    /// Notes that the image of `node` is out.
    pub(crate) fn put_out(&mut self, node: usize)
        requires { node < MAX_NODES }
        ensures with { self.new ≡ with_out self.old node }
        ensures is { is_out self.new node ≡ true }
    {
        self.out[node] = true;
    }
}
