//! Where a trace stops, by the places that were typed.

ghost use Rattle.std.specs.Prelude.{◌≡◌, ◌⊎◌, false, IfErr, IfOk, option_copied};
ghost use Rattle.tp_views.specs.Maps.{rows_seen};
ghost use Rattle.tp_views.specs.Placing.{LacksPlace, LacksWatched, is_below, place_in, place_of, range_of};

use crate::maps::{MapRow, address_in, address_of};
use crate::refusal::Refusal;
use crate::trace::stops::{Range, Stops};
use tp_words::TraceLines;

/// The first address of memory.
const FIRST_ADDRESS: u32 = 0x8000_0000;

/// The address of a place: eight hexadecimal digits, or a label of the map.
fn place_in(rows: &[MapRow<'_>], text: &str) -> Option<u32>
    ensures { result ≡ place_in (rows_seen rows.now) text.now }
{
    match address_in(text.as_bytes()) {
        Some(address) => Some(address),
        None => address_of(rows, text),
    }
}

/// The address of a place, if one is asked for.
fn place_of(rows: &[MapRow<'_>], asked: Option<&str>) -> Result<Option<u32>, Refusal>
    ensures place { IfOk result (λ found. found ≡ place_of (rows_seen rows.now) (option_copied asked.entry)) }
    ensures refused { IfErr result (LacksPlace (rows_seen rows.now) (option_copied asked.entry)) }
{
    let Some(text) = asked else {
        return Ok(None);
    };
    match place_in(rows, text) {
        Some(address) => Ok(Some(address)),
        None => Err(Refusal::NoPlace),
    }
}

/// The address from which on bytes are watched, if any are. It refuses one below memory.
fn watched_from(rows: &[MapRow<'_>], asked: Option<&str>) -> Result<Option<u32>, Refusal>
    ensures place { IfOk result (λ found. found ≡ place_of (rows_seen rows.now) (option_copied asked.entry)) }
    ensures inside { IfOk result (λ found. is_below found ≡ false) }
    ensures refused { IfErr result (LacksWatched (rows_seen rows.now) (option_copied asked.entry)) }
{
    match place_of(rows, asked)? {
        Some(address) if address < FIRST_ADDRESS => Err(Refusal::NoPlace),
        from => Ok(from),
    }
}

/// `count` bytes from an address on, if there is one.
fn range_of(count: u32, from: Option<u32>) -> Option<Range>
    ensures { result ≡ range_of count from }
{
    match from {
        Some(from) => Some(Range {
            from,
            count: count as usize,
        }),
        None => None,
    }
}

/// Where a trace that prints these lines stops: before the instruction at the place `until`, and after a change of `count` bytes from the place `watch`
/// on. It refuses a place that is neither an address nor a label of the map, and a `watch` below the first address of memory.
pub fn stops_at(
    lines: TraceLines,
    rows: &[MapRow<'_>],
    until: Option<&str>,
    watch: Option<&str>,
    count: u32,
) -> Result<Stops, Refusal>
    ensures lines { IfOk result (λ stops. stops.lines ≡ lines) }
    ensures until { IfOk result (λ stops. stops.until ≡ place_of (rows_seen rows.now) (option_copied until.entry)) }
    ensures watch { IfOk result (λ stops. stops.watch ≡ range_of count (place_of (rows_seen rows.now) (option_copied watch.entry))) }
    ensures inside { IfOk result (λ stops. is_below (place_of (rows_seen rows.now) (option_copied watch.entry)) ≡ false) }
    ensures refused { IfErr result (λ refusal. LacksPlace (rows_seen rows.now) (option_copied until.entry) refusal ⊎ LacksWatched (rows_seen rows.now) (option_copied watch.entry) refusal) }
{
    let until = place_of(rows, until)?;
    let from = watched_from(rows, watch)?;
    Ok(Stops {
        lines,
        until,
        watch: range_of(count, from),
    })
}
