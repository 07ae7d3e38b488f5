//! How calls of commands go.

use crate::faulty::Plan;
use crate::typed::{count_of, malformed, parted};
use std::io;

/// How the calls of a command go, by words: no read or write moves more bytes than `most` says, each read is interrupted once, nothing is seen at a
/// path, or a device can't be opened to write it. With no word all are done.
pub(crate) fn read_calls(words: &str) -> io::Result<Plan> {
    let plan = Plan::NONE;
    match parted(words) {
        ("", "") => Ok(plan),
        ("most", count) => Ok(Plan {
            most: count_of(count)?,
            ..plan
        }),
        ("interrupted", "") => Ok(Plan {
            interrupts: true,
            ..plan
        }),
        ("blind", "") => Ok(Plan {
            is_blind: true,
            ..plan
        }),
        ("read-only", "") => Ok(Plan {
            only_reads: true,
            ..plan
        }),
        _ => Err(malformed()),
    }
}

/// How calls fail one after another, by two words: each alone, or onward with all after it; and whether those on a device count, or on all
/// files.
pub(crate) fn read_failing(how: &str, files: &str) -> io::Result<Plan> {
    let (goes_on, is_everywhere) = match (how, files) {
        ("alone", "device") => (true, false),
        ("alone", "all") => (true, true),
        ("onward", "device") => (false, false),
        ("onward", "all") => (false, true),
        _ => return Err(malformed()),
    };
    Ok(Plan {
        goes_on,
        is_everywhere,
        ..Plan::NONE
    })
}
