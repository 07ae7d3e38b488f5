//! What of a device is copied.

ghost use Rattle.std.specs.Prelude.{◌≡◌, ◌+◌, ◌≤◌, ◌<◌, IsTrue, ◌↔◌};
ghost use Rattle.tp_recover.specs.Lower.{area_start, areas_end, AREA_HEAD_BYTES};
ghost use Rattle.tp_recover.specs.Copies.{area_kept};

use crate::Opened;
use tp_model::{Form, TwoAreas};

/// What of an opened device is copied:
/// - where the areas are, and whether the second one is open;
/// - its generation and its form;
/// - where the closed gate after its groups is;
/// - the number of the next entry.
#[derive(Clone, Copy)]
pub(crate) struct Kept {
    pub(crate) areas: TwoAreas,
    pub(crate) second: bool,
    pub(crate) generation: u64,
    pub(crate) form: Form,
    pub(crate) end: u64,
    pub(crate) next: u64,
}

/// Whether two forms are one.
fn is_form(one: Form, other: Form) -> bool
    ensures { IsTrue result ↔ one ≡ other }
{
    match (one, other) {
        (Form::Plain, Form::Plain) | (Form::Turns, Form::Turns) => true,
        (Form::Plain, Form::Turns) | (Form::Turns, Form::Plain) => false,
    }
}

/// Whether what is copied of two opened devices is equal.
pub(crate) fn is_kept(one: Kept, other: Kept) -> bool
    ensures { IsTrue result ↔ one ≡ other }
{
    one.areas == other.areas
        && one.second == other.second
        && one.generation == other.generation
        && is_form(one.form, other.form)
        && one.end == other.end
        && one.next == other.next
}

/// Gives what of an opened device is copied.
pub(crate) fn kept_of(opened: &Opened) -> Kept
    ensures value { result ≡ area_kept opened.now }
    ensures behind { area_start result.areas result.second + AREA_HEAD_BYTES ≤ result.end }
    ensures inside { result.end < area_start result.areas result.second + result.areas.length }
{
    Kept {
        areas: opened.head().areas(),
        second: opened.second(),
        generation: opened.generation(),
        form: opened.form(),
        end: opened.end(),
        next: opened.next(),
    }
}

/// Whether both areas are inside a device of `size` bytes.
pub(crate) fn lie_in(areas: TwoAreas, size: u64) -> bool
    ensures { IsTrue result ↔ areas_end areas ≤ size }
{
    size >= areas.first && areas.length <= (size - areas.first) / 2
}
