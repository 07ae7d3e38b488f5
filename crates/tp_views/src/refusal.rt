//! Why a command wasn't done.

ghost use Rattle.std.specs.Prelude.{◌≡◌, Some};
ghost use Rattle.tp_views.specs.Refused.{file_text, refusal_name};
ghost use Rattle.tp_views.specs.declared.refusal.Refusal.TheVariants.{Format, Memory, Opening, Topology};

use std::alloc::{AllocError, AllocFailed};
use std::fmt;
use tp_area::FormatFault;
use tp_model::NetFault;
use tp_recover::Unopened;
use tp_turn::TryFault;

/// Which file a map is in.
#[derive(Clone, Copy)]
pub enum MapFile {
    /// The file that was typed.
    Named,
    /// The file of this node, in the folder that was typed.
    Node(usize),
    /// The file of all nodes without one of their own, in the folder that was typed.
    All,
}

impl fmt::Display for MapFile {
    ghost output = { λ file. Some (file_text file) };

    fn fmt<W: fmt::Write>(&self, f: &mut fmt::Formatter<W>) -> fmt::Result {
        match self {
            MapFile::Named => Ok(()),
            MapFile::Node(node) => write!(f, " {node}.map"),
            MapFile::All => f.write_str(" all.map"),
        }
    }
}

/// Why a command wasn't done. The program then ends with status 1, and this name on standard error.
#[derive(Clone, Copy)]
pub enum Refusal {
    /// The node of the image wasn't tried.
    Trial(TryFault),
    /// The text says no topology.
    Topology(NetFault),
    /// The device wasn't formatted.
    Format(FormatFault),
    /// The device wasn't opened.
    Opening(Unopened),
    /// A file can't be read.
    ReadFailed,
    /// The device's file must be new, and is there already.
    DeviceExists,
    /// What was to be written couldn't be written.
    DeviceFailed,
    /// Another process holds the device.
    InUse,
    /// Out of memory.
    Memory,
    /// Another process writes the device so fast that it couldn't be read as it was at one moment.
    Busy,
    /// What was typed as a place is neither an address nor a label of the map, or it is to be watched and lies below memory.
    NoPlace,
    /// This line of a map, counted from 1, isn't one of a map.
    BadMap(MapFile, u64),
}

impl fmt::Display for Refusal {
    ghost output = { λ refusal. refusal_name refusal };

    fn fmt<W: fmt::Write>(&self, f: &mut fmt::Formatter<W>) -> fmt::Result {
        match self {
            Refusal::Trial(cause) => fmt::Display::fmt(cause, f),
            Refusal::Topology(cause) => fmt::Display::fmt(cause, f),
            Refusal::Format(cause) => fmt::Display::fmt(cause, f),
            Refusal::Opening(cause) => fmt::Display::fmt(cause, f),
            Refusal::ReadFailed => f.write_str("ReadFailed"),
            Refusal::DeviceExists => f.write_str("DeviceExists"),
            Refusal::DeviceFailed => f.write_str("DeviceFailed"),
            Refusal::InUse => f.write_str("InUse"),
            Refusal::Memory => f.write_str("Memory"),
            Refusal::Busy => f.write_str("Busy"),
            Refusal::NoPlace => f.write_str("NoPlace"),
            Refusal::BadMap(file, line) => write!(f, "BadMap{file} {line}"),
        }
    }
}

impl From<NetFault> for Refusal {
    ghost from_gives = { λ fault refusal. refusal ≡ Topology fault };

    fn from(fault: NetFault) -> Refusal {
        Refusal::Topology(fault)
    }
}

impl From<FormatFault> for Refusal {
    ghost from_gives = { λ fault refusal. refusal ≡ Format fault };

    fn from(fault: FormatFault) -> Refusal {
        Refusal::Format(fault)
    }
}

impl From<Unopened> for Refusal {
    ghost from_gives = { λ unopened refusal. refusal ≡ Opening unopened };

    fn from(unopened: Unopened) -> Refusal {
        Refusal::Opening(unopened)
    }
}

impl From<AllocError> for Refusal {
    ghost from_gives = { λ _ refusal. refusal ≡ Memory };

    fn from(_error: AllocError) -> Refusal {
        Refusal::Memory
    }
}

impl<T: Drop> From<AllocFailed<T>> for Refusal {
    ghost from_gives = { λ _ refusal. refusal ≡ Memory };

    fn from(_error: AllocFailed<T>) -> Refusal {
        Refusal::Memory
    }
}
