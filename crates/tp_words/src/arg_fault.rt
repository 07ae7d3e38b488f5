//! Why words ask for nothing, and what is said then.

ghost use Rattle.std.specs.Prelude.{◌≡◌};
ghost use Rattle.tp_words.specs.Told.{arg_text};
ghost use Rattle.tp_words.specs.declared.arg_fault.ArgFault.TheVariants.{Memory};

use crate::args::MAX_WORDS;
use std::alloc::{AllocError, AllocFailed};
use std::fmt;

/// Why the words ask for nothing. Each ends the program with status 2.
#[derive(Drop)]
pub enum ArgFault {
    /// `clap`'s own text, which says what is wrong and how to call.
    Words(clap::Error),
    /// What was typed for the option `id` is no decimal in its range.
    Range {
        id: &'static str,
        least: u64,
        most: u64,
    },
    /// What was typed for AREA, or for `--area`, is no size in its range.
    Size(&'static str),
    /// The number of a node, a port or an entry is no decimal.
    Number,
    /// The last entry that is asked for is before the first one.
    Order,
    /// What was typed for `--in` isn't a link, an equals sign and a file.
    Links,
    /// Two files are there whose bytes come in at this link.
    TwoInputs(u8),
    /// There are more words than any command has.
    Many,
    /// This option goes with `--stream`.
    Stream(&'static str),
    /// Both `--explain` and `--no-explain` are there.
    BothExplain,
    /// No command takes the words, and `clap` doesn't say why: an option goes with another one, or with another place.
    Missing,
    Memory,
}

/// Which numbers an option takes, if that isn't told by the least and the most of them.
const BOUNDS: &[(&str, &str)] = &[
    ("spare", "from 0 to the pages of the smallest node"),
    ("port", "from 0 to 7, a port of the device"),
    ("from", "below 2^64"),
    ("to", "below 2^64"),
    ("node", "below 2^64, a node of the device"),
    ("last", "from 1, below 2^64"),
];

/// Says which numbers an option takes.
fn say_bounds<W: fmt::Write>(
    f: &mut fmt::Formatter<W>,
    id: &str,
    least: u64,
    most: u64,
) -> fmt::Result {
    for (name, bounds) in BOUNDS {
        if *name == id {
            return f.write_str(bounds);
        }
    }
    write!(f, "from {least} to {most}")
}

/// Says what an option takes.
fn say_range<W: fmt::Write>(
    f: &mut fmt::Formatter<W>,
    id: &str,
    least: u64,
    most: u64,
) -> fmt::Result {
    write!(f, "tpnet: --{id} takes a decimal ")?;
    say_bounds(f, id, least, most)?;
    f.write_str(", without a sign or leading zeros\n")
}

impl fmt::Display for ArgFault {
    ghost output = { λ fault. arg_text fault };

    fn fmt<W: fmt::Write>(&self, f: &mut fmt::Formatter<W>) -> fmt::Result {
        match self {
            ArgFault::Words(error) => write!(f, "{error}"),
            ArgFault::Range { id, least, most } => say_range(f, id, *least, *most),
            ArgFault::Size(name) => write!(
                f,
                "tpnet: {name} takes a decimal without a sign or leading zeros, or one with K, M or G right after it, of at most 1099511627776 bytes\n"
            ),
            ArgFault::Number => f.write_str(
                "tpnet: a number of a node or a port is a decimal below 2^64, without a sign or leading zeros\n",
            ),
            ArgFault::Order => {
                f.write_str("tpnet: --to is below --from: there is no entry between them\n")
            }
            ArgFault::Links => {
                f.write_str("tpnet: --in takes L=FILE, L a link from 0 to 3; as --in 0=bytes\n")
            }
            ArgFault::TwoInputs(link) => {
                write!(
                    f,
                    "tpnet: link {link} has two inputs: leave one --in {link}\n"
                )
            }
            ArgFault::Many => write!(f, "tpnet: there are more than {MAX_WORDS} words\n"),
            ArgFault::Stream(id) => write!(
                f,
                "tpnet: --{id} goes with --stream; see tpnet run --stream --help\n"
            ),
            ArgFault::BothExplain => f.write_str(
                "tpnet: --explain and --no-explain are both there: leave one of them\n",
            ),
            ArgFault::Missing => f.write_str("tpnet: a word is missing; see tpnet --help\n"),
            ArgFault::Memory => f.write_str("tpnet: Memory\n"),
        }
    }
}

impl From<clap::Error> for ArgFault {
    fn from(error: clap::Error) -> ArgFault {
        ArgFault::Words(error)
    }
}

impl From<AllocError> for ArgFault {
    ghost from_gives = { λ _ fault. fault ≡ Memory };

    fn from(_error: AllocError) -> ArgFault {
        ArgFault::Memory
    }
}

impl<T: Drop> From<AllocFailed<T>> for ArgFault {
    ghost from_gives = { λ _ fault. fault ≡ Memory };

    fn from(_error: AllocFailed<T>) -> ArgFault {
        ArgFault::Memory
    }
}
