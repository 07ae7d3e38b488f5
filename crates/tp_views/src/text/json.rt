//! How values are spelt for scripts. All that is printed is numbers and fixed names, so no text needs an escape.

ghost use Rattle.std.specs.Prelude.{◌≡◌, ◌++◌, OnOk, string_bytes};
ghost use Rattle.tp_views.specs.Json.{comma, json_bool};

use std::alloc::AllocError;

/// Gives what comes before an item of a list, if `before` items come before it.
pub(crate) fn comma(before: usize) -> &'static str
    ensures { result.now ≡ comma before }
{
    if before == 0 { "" } else { "," }
}

/// Gives the word for whether something is true.
pub(crate) fn json_bool(is_so: bool) -> &'static str
    ensures { result.now ≡ json_bool is_so }
{
    if is_so { "true" } else { "false" }
}

/// Appends a part as it is.
pub(crate) fn push(text: &mut String, part: &str) -> Result<(), AllocError>
    ensures { OnOk result (string_bytes text.new ≡ string_bytes text.old ++ part.now) }
{
    text.push_str(part)
}
