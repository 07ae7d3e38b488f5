//! What is typed for a stream's ports: the names of files.

ghost use Rattle.std.specs.Prelude.{◌≡◌};
ghost use Rattle.tp_stream_files.specs.Named.{standard_port};

use std::fmt;
use thiserror::Error;

/// A port, and the path of a file; `-` is standard input or output.
#[derive(Drop)]
pub struct PortFile {
    pub port: u8,
    pub path: String,
}

impl PortFile {
    ghost use Rattle.tp_stream_files.specs.Named.{is_standard};

    /// Whether it is standard input or output.
    pub fn is_standard(&self) -> bool
        ensures { result ≡ is_standard self.now }
    {
        self.path.as_bytes() == b"-".as_slice()
    }
}

/// A port, and up to which position its reader has its output.
#[derive(Clone, Copy)]
pub struct PortNumber {
    pub port: u8,
    pub number: u64,
}

/// What is typed for ports: the files of outputs, how far readers have them, the ports whose output is discarded, and the files of inputs.
#[derive(Drop)]
pub struct Ends {
    pub outs: Vec<PortFile>,
    pub haves: Vec<PortNumber>,
    pub discards: Vec<u8>,
    pub ins: Vec<PortFile>,
}

/// Gives the port of the first file that is standard input or output.
fn standard_of(files: &[PortFile]) -> Option<u8>
    ensures { result ≡ standard_port files.now }
{
    for file in files {
        if file.is_standard() {
            return Some(file.port);
        }
    }
    None
}

impl Ends {
    ghost use Rattle.tp_stream_files.specs.Named.{have_in};

    /// Gives the port whose output goes to standard output.
    pub fn standard_out(&self) -> Option<u8>
        ensures { result ≡ standard_port self.now.outs.items }
    {
        standard_of(&self.outs)
    }

    /// Gives the port whose input comes from standard input.
    pub fn standard_in(&self) -> Option<u8>
        ensures { result ≡ standard_port self.now.ins.items }
    {
        standard_of(&self.ins)
    }

    /// Gives up to which position the reader of a port has its output.
    pub(crate) fn have_of(&self, port: u8) -> Option<u64>
        ensures { result ≡ have_in self.now.haves.items port }
    {
        for have in &self.haves {
            if have.port == port {
                return Some(have.number);
            }
        }
        None
    }
}

/// Why outputs and inputs aren't opened.
#[derive(Clone, Copy, Error)]
pub enum EndFault {
    /// The file of a port's input can't be read.
    #[error("ReadFailed")]
    ReadFailed(u8),
    /// The file of a port's output can't be opened to be written, or can't be made.
    #[error("DeviceFailed")]
    DeviceFailed(u8),
    /// The file of a port's output is that of the device, of an input, of another port's output or of standard error.
    #[error("SameFile {0}")]
    SameFile(u8),
    /// Standard input or output was typed for this port and another one.
    #[error("Twice {0}")]
    Twice(u8),
    /// Out of memory.
    #[error("Memory")]
    Memory,
}

impl fmt::Debug for EndFault {
    fn fmt<W: fmt::Write>(&self, f: &mut fmt::Formatter<W>) -> fmt::Result {
        fmt::Display::fmt(self, f)
    }
}
