//! By which words the faults of a compaction, a run and a stream are printed.

use std::alloc::Global;
use std::fmt::{Debug, Display, Write};
use tp_recover::Unopened;
use tp_run::{CompactFault, RunFault};
use tp_stream::StreamFault;

/// How each fault of a compaction is printed; that of a device which isn't opened by the opening's name.
const COMPACTIONS: &[(CompactFault, &str)] = &[
    (CompactFault::Opening(Unopened::ReadFailed), "ReadFailed"),
    (CompactFault::NoGeneration, "JournalFull"),
    (CompactFault::DeviceFailed, "DeviceFailed"),
    (CompactFault::NotWhole, "NotWhole"),
    (CompactFault::Memory, "Memory"),
];

/// How each fault of a run is printed; that of a device which isn't opened by the opening's name.
const RUNS: &[(RunFault, &str)] = &[
    (RunFault::Opening(Unopened::ReadFailed), "ReadFailed"),
    (RunFault::Spare, "Spare"),
    (RunFault::Port, "Port"),
    (RunFault::OfferRefused, "JournalFull"),
    (RunFault::FlushFailed, "DeviceFailed"),
    (RunFault::OutputFailed, "DeviceFailed"),
    (RunFault::ConfirmRefused, "JournalFull"),
    (RunFault::LastFlushFailed, "DeviceFailed"),
    (RunFault::Unaccounted, "Unaccounted"),
    (RunFault::Memory, "Memory"),
];

/// How each fault of a stream is printed, with its port and its numbers.
const STREAMS: &[(StreamFault, &str)] = &[
    (StreamFault::Opening(Unopened::ReadFailed), "ReadFailed"),
    (StreamFault::Spare, "Spare"),
    (StreamFault::Port(3), "Port 3"),
    (StreamFault::Unnamed(7), "Unnamed 7"),
    (
        StreamFault::Short {
            port: 2,
            has: 40,
            from: 501,
        },
        "Short 2 40 501",
    ),
    (
        StreamFault::Long {
            port: 3,
            has: 600,
            upto: 51,
        },
        "Long 3 600 51",
    ),
    (
        StreamFault::Gone {
            port: 4,
            have: 70,
            confirmed: 801,
        },
        "Gone 4 70 801",
    ),
    (
        StreamFault::NotShown {
            port: 5,
            have: 900,
            shown: 81,
        },
        "NotShown 5 900 81",
    ),
    (
        StreamFault::ShortInput {
            port: 6,
            has: 10,
            accepted: 201,
        },
        "ShortInput 6 10 201",
    ),
    (StreamFault::InputFailed(1), "ReadFailed"),
    (StreamFault::OutputFailed(1), "DeviceFailed"),
    (StreamFault::FlushFailed, "DeviceFailed"),
    (StreamFault::NotStored, "DeviceFailed"),
    (StreamFault::JournalFull, "JournalFull"),
    (StreamFault::Memory, "Memory"),
];

/// Whether a fault is printed so, and by `Debug`, too.
fn is_printed<F: Debug + Display>(alloc: Global, fault: &F, name: &str) -> bool {
    let (mut shown, mut noted) = (String::new(alloc), String::new(alloc));
    write!(shown, "{fault}").is_ok()
        && write!(noted, "{fault:?}").is_ok()
        && shown.as_str() == name
        && noted.as_str() == name
}

#[test]
fn faults_of_a_compaction_are_printed_by_their_names(rt: HostRuntime) {
    for (fault, name) in COMPACTIONS {
        let printed = is_printed(rt.alloc(), fault, name);
        assert!(rt; printed, "{name}");
    }
}

#[test]
fn faults_of_a_run_are_printed_by_their_names(rt: HostRuntime) {
    for (fault, name) in RUNS {
        let printed = is_printed(rt.alloc(), fault, name);
        assert!(rt; printed, "{name}");
    }
}

#[test]
fn faults_of_a_stream_are_printed_by_their_names(rt: HostRuntime) {
    for (fault, name) in STREAMS {
        let printed = is_printed(rt.alloc(), fault, name);
        assert!(rt; printed, "{name}");
    }
}
