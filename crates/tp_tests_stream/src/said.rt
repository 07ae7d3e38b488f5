//! What a command said.

/// The status that a command ends with, and what it wrote.
#[derive(Drop)]
pub(crate) struct Said {
    pub(crate) status: u8,
    /// On standard output.
    pub(crate) out: Vec<u8>,
    /// On standard error.
    pub(crate) err: Vec<u8>,
}

impl Said {
    /// Whether it has that status, and just these bytes on standard output and standard error.
    pub(crate) fn is(&self, status: u8, out: &[u8], err: &[u8]) -> bool {
        self.status == status && self.out.as_slice() == out && self.err.as_slice() == err
    }
}
