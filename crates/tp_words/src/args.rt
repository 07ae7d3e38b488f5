//! What a command line asks for that is none of a stream, of `stop` or of `backup`.

ghost use Rattle.std.specs.Prelude.{◌≢◌, IfErr, IfOk, map};
ghost use Rattle.tp_words.specs.Args.{IsInRange, WasTyped};
ghost use Rattle.tp_words.specs.Places.{HasPlaces, IsTakenAs};
ghost use Rattle.tp_words.specs.Refused.{IsRefusedAs};
ghost use Rattle.tp_words.specs.declared.words.Name.TheVariants as of;

use crate::arg_fault::ArgFault;
use crate::device_args::{asked_compact, asked_format, asked_run};
use crate::trace_args::{ImageTrace, asked_trace};
use crate::view_args::{
    asked_check, asked_image, asked_journal, asked_node, asked_port, asked_recover, asked_show,
    asked_status, asked_try, asked_waits,
};
use crate::views::{TracePart, View};
use crate::words::Name;
use std::alloc::Global;

/// What a command line asks for that is none of a stream, of `stop` or of `backup`.
#[derive(Drop)]
pub enum Asked {
    /// How to call the program, or which version it is.
    Help(String),
    /// Turns of one node, from its image, without a device.
    Try {
        image: String,
        turns: u32,
    },
    /// Steps of one node, from its image, without a device: what each does, in a line, or what leaves at its links.
    Trace(ImageTrace),
    /// Opens a device and shows the steps that its journal's entries made at a node, a line each. `maps`: the folder of the maps that name addresses,
    /// where one is given.
    TraceDevice {
        device: String,
        part: TracePart,
        maps: Option<String>,
    },
    /// A new device.
    Format(NewDevice),
    /// A run of a device's network.
    Run(Run),
    /// Makes a device's network, as it is, its cut, after which the journal is empty. `wait_lock`: how many seconds it waits for another process that
    /// holds the device.
    Compact {
        device: String,
        wait_lock: u32,
    },
    /// Opens a device by `workers` threads and says what the next entry's number is.
    Recover {
        device: String,
        workers: u8,
    },
    /// Opens a device and says what it holds. `json`: as JSON.
    Show {
        device: String,
        json: bool,
    },
    /// Opens a device and says in a line whether it is run, and how far it is. `every`: how many seconds are between two checks; `None`: there is
    /// one. `json`: as JSON.
    Status {
        device: String,
        every: Option<u32>,
        json: bool,
    },
    /// Reads a topology and its images, and says how large an area has to be. `json`: as JSON.
    Check {
        topology: String,
        images: String,
        json: bool,
    },
    /// Opens a device and shows a view of it. `maps`: the folder of the maps that name addresses, if one is given.
    View {
        device: String,
        view: View,
        maps: Option<String>,
    },
}

/// A device that is to be made: its file, the file of its topology, the folder of the images, and the bytes of an area; `None`: as many as
/// `tpnet check` says for it.
#[derive(Drop)]
pub struct NewDevice {
    pub device: String,
    pub topology: String,
    pub images: String,
    pub area: Option<u64>,
    /// Whether an existing file is refused.
    pub only_new: bool,
    /// How many seconds it waits for another process that holds the device.
    pub wait_lock: u32,
}

/// A run of a device's network: its file, how many turns are made and how, the port that input goes to and output comes from, and the file of that
/// port's whole input.
#[derive(Drop)]
pub struct Run {
    pub device: String,
    pub turns: u32,
    pub workers: u8,
    /// The most steps of a turn.
    pub quantum: u16,
    /// The spare frames of each node.
    pub spare: u64,
    /// The entries since the kept cut after which a snapshot begins; `None`: if the journal is half full.
    pub every: Option<u32>,
    pub port: u64,
    pub input: Option<String>,
    /// How many seconds it waits for another process that holds the device.
    pub wait_lock: u32,
}

/// The most bytes that an area is made with.
pub const MAX_AREA: u64 = 1 << 40;

/// The most turns of a trial or a run, and the most steps of a trace.
pub const MAX_TURNS: u64 = 4_294_967_295;

/// How many steps of a node are traced, if nothing else is asked for.
pub const STEPS: u32 = 100;

/// The most threads that make the turns of a run, as many as `tp_run` takes, and the most that open a device.
pub const MAX_WORKERS: u8 = 16;

/// How many steps a turn may run, if nothing else is asked for.
pub const QUANTUM: u16 = 1024;

/// The most seconds that a command waits for another process.
pub const MAX_WAIT: u64 = 4_294_967;

/// The most words of a command line. Each port has four options at most, each of two words.
pub const MAX_WORDS: usize = 256;

/// What a line asks for that is taken as this command, which is none of a stream, of `stop` and of `backup`.
pub fn asked_by(
    alloc: Global,
    words: &[String],
    name: Name,
    places: &[&str],
) -> Result<Asked, ArgFault>
    requires other { (name ≢ of.Stop) × (name ≢ of.Backup) × (name ≢ of.Stream) }
    requires taken { IsTakenAs words.now name (map (λ place. place.now) places.now) }
    ensures range { IfOk result IsInRange }
    ensures typed { IfOk result (WasTyped words.now) }
    ensures places { IfOk result (HasPlaces words.now) }
    ensures refused { IfErr result (IsRefusedAs name words.now (map (λ place. place.now) places.now)) }
{
    match name {
        Name::Try => asked_try(alloc, words, places),
        Name::Trace => asked_trace(alloc, words, places),
        Name::Check => asked_check(alloc, words, places),
        Name::Format => asked_format(alloc, words, places),
        Name::Run => asked_run(alloc, words, places),
        Name::Compact => asked_compact(alloc, words, places),
        Name::Recover => asked_recover(alloc, words, places),
        Name::Show => asked_show(alloc, words, places),
        Name::Status => asked_status(alloc, words, places),
        Name::Waits => asked_waits(alloc, words, places),
        Name::Journal => asked_journal(alloc, words, places),
        Name::Node => asked_node(alloc, words, places),
        Name::Image => asked_image(alloc, words, places),
        Name::Port => asked_port(alloc, words, places),
        Name::Stop | Name::Backup | Name::Stream => unreachable!(),
    }
}
