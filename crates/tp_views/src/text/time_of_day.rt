//! The time of day at the beginning of a line of `status`, and the time for scripts.

ghost use Rattle.std.specs.Prelude.{◌≡◌, ◌++◌, OnOk, string_bytes};
ghost use Rattle.tp_views.specs.TimeOfDay.{day_part, time_field, time_part};

use crate::text::json::push;
use crate::text::parts::Part::{Number, Text};
use crate::text::parts::push_parts;
use std::alloc::AllocError;

/// Appends hours, minutes and seconds.
fn push_day(text: &mut String, hours: u64, minutes: u64, seconds: u64) -> Result<(), AllocError>
    ensures { OnOk result (string_bytes text.new ≡ string_bytes text.old ++ day_part hours minutes seconds) }
{
    push_parts(
        text,
        &[
            Number(hours / 10),
            Number(hours % 10),
            Text(":"),
            Number(minutes / 10),
            Number(minutes % 10),
            Text(":"),
            Number(seconds / 10),
            Number(seconds % 10),
            Text("Z "),
        ],
    )
}

/// Appends the time of day, by the seconds since 1970, if they are given.
pub(crate) fn push_time(text: &mut String, clock: Option<u64>) -> Result<(), AllocError>
    ensures { OnOk result (string_bytes text.new ≡ string_bytes text.old ++ time_part clock) }
{
    match clock {
        Some(seconds) => push_day(
            text,
            seconds % 86_400 / 3_600,
            seconds % 3_600 / 60,
            seconds % 60,
        ),
        None => Ok(()),
    }
}

/// Appends the field of the seconds since 1970, if they are given, and ends the object.
pub(crate) fn push_time_field(text: &mut String, clock: Option<u64>) -> Result<(), AllocError>
    ensures { OnOk result (string_bytes text.new ≡ string_bytes text.old ++ time_field clock) }
{
    match clock {
        Some(seconds) => push_parts(text, &[Text(",\"time\":"), Number(seconds), Text("}\n")]),
        None => push(text, "}\n"),
    }
}
