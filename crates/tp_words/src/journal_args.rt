//! The part of a journal that the command line asks for.

ghost use Rattle.std.specs.Prelude.{◌≡◌, ◌≤◌, ◌<◌, [], IfErr, IfOk, IfSome, IsSomeAnd};
ghost use Rattle.std.specs.Fmt.{decimal};
ghost use Rattle.tp_words.specs.Args.{HasTyped, IsTypedPart, IsTypedTrace, IsView};
ghost use Rattle.tp_words.specs.Numbers.{IsFirstNumberFault, journal_options};
ghost use Rattle.tp_words.specs.Places.{HasViewFlag, view_command, view_places};
ghost use Rattle.tp_words.specs.Refused.{IsJournalFault, IsTraceFault};
ghost use Rattle.tp_words.specs.declared.arg_fault.ArgFault.TheVariants.{Order};
ghost use Rattle.tp_words.specs.declared.words.Name.TheVariants as of;

use crate::arg_fault::ArgFault;
use crate::found::{option_number, option_or, place_of};
use crate::numbers::has_flag;
use crate::views::{JournalPart, TracePart, View};
use std::alloc::Global;

/// The options of a journal, each in its range.
fn options_of(alloc: Global, words: &[String]) -> Result<JournalPart, ArgFault>
    ensures last { IfOk result (λ part. IfSome part.last (λ last. 0 < last)) }
    ensures typed { IfOk result (IsTypedPart words.now) }
    ensures refused { IfErr result (IsFirstNumberFault words.now journal_options) }
{
    Ok(JournalPart {
        from: option_or(alloc, words, "from", 0, u64::MAX, 0)?,
        to: option_number(alloc, words, "to", 0, u64::MAX)?,
        node: option_number(alloc, words, "node", 0, u64::MAX)?,
        last: option_number(alloc, words, "last", 1, u64::MAX)?,
        json: has_flag(words, "--json"),
    })
}

/// The node and the entries that are traced.
pub(crate) fn trace_part(alloc: Global, words: &[String], text: &str) -> Result<TracePart, ArgFault>
    ensures order { IfOk result (λ part. IfSome part.to (λ to. part.from ≤ to)) }
    ensures typed { IfOk result (IsTypedTrace words.now) }
    ensures node { IfOk result (λ part. text.now ≡ decimal part.node) }
    ensures refused { IfErr result (IsTraceFault words.now text.now) }
{
    let node = place_of(alloc, text)?;
    let from = option_or(alloc, words, "from", 0, u64::MAX, 0)?;
    let to = option_number(alloc, words, "to", 0, u64::MAX)?;
    let part = TracePart { node, from, to };
    match part.to {
        Some(to) if to < part.from => Err(ArgFault::Order),
        _ => Ok(part),
    }
}

/// The part itself, if its last number isn't below its first one.
fn in_order(part: JournalPart) -> Result<JournalPart, ArgFault>
    ensures order { IfOk result (λ kept. IfSome kept.to (λ to. kept.from ≤ to)) }
    ensures same { IfOk result (λ kept. kept ≡ part) }
    ensures refused { IfErr result (λ fault. (fault ≡ Order) × IsSomeAnd part.to (λ to. to < part.from)) }
{
    match part.to {
        Some(to) if to < part.from => Err(ArgFault::Order),
        _ => Ok(part),
    }
}

/// The part of a journal that is shown.
pub(crate) fn journal_view(alloc: Global, words: &[String]) -> Result<View, ArgFault>
    ensures range { IfOk result IsView }
    ensures typed { IfOk result (HasTyped words.now) }
    ensures flag { IfOk result (HasViewFlag words.now) }
    ensures journal { IfOk result (λ view. (view_command view ≡ of.Journal) × (view_places view ≡ [])) }
    ensures refused { IfErr result (IsJournalFault words.now) }
{
    let part = options_of(alloc, words)?;
    Ok(View::Journal(in_order(part)?))
}
