//! When a run begins a snapshot.

ghost use Rattle.std.specs.Prelude.{◌≡◌, true, false, Ok, IfOk, OnErr};
ghost use Rattle.tp_run.specs.Lower.{after_begin, begin_refusal, IsAnswer, is_due};
ghost use Rattle.tp_run.specs.Every.{every_of, missing_in};

use std::alloc::Global;
use tp_area::JournalRoom;
use tp_book::Refusal;
use tp_net::Topology;
use tp_shared::{Locked, Naming};

/// How many entries since the kept cut begin a snapshot: `asked`; if that is `None`, half of a journal, and at least one.
pub(crate) fn every_of(asked: Option<u32>, topology: &Topology, area: u64) -> u64
    ensures { result ≡ every_of asked topology.now area }
{
    match asked {
        Some(entries) => entries.into(),
        None => JournalRoom::of(topology, area).half().max(1),
    }
}

/// How many more entries are needed until there are `every` since the kept cut.
pub(crate) fn missing_in<J: Naming>(held: &Locked<J>, every: u64) -> u64
    ensures { result ≡ missing_in every held.now.book }
{
    let made = held.book().next().saturating_sub(held.book().base());
    every.saturating_sub(made)
}

/// Begins a snapshot, under the book's lock, if `every` entries or more have been made since the kept cut. Answers whether it did. Fails for the
/// reason that the book gives, or with `Memory`, and then changes nothing.
pub(crate) fn begin_where_due<J: Naming>(
    held: &mut Locked<J>,
    alloc: Global,
    every: u64,
) -> Result<bool, Refusal>
    ensures due { IfOk result (λ begun. begun ≡ is_due every held.old.book) }
    ensures begun { result ≡ Ok true → held.new ≡ record held.old { book = after_begin held.old.book } }
    ensures early { result ≡ Ok false → held.new ≡ held.old }
    ensures refused { is_due every held.old.book ≡ true → IsAnswer (begin_refusal held.old.book) result }
    ensures err { OnErr result (held.new ≡ held.old) }
{
    let made = held.book().next().saturating_sub(held.book().base());
    if made < every {
        return Ok(false);
    }
    held.begin_snapshot(alloc)?;
    Ok(true)
}
