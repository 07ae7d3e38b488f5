//! What a map says of an address, for scripts.

ghost use Rattle.std.specs.Prelude.{◌≡◌, ◌++◌, ◌≤◌, IfSome, OnOk, string_bytes};
ghost use Rattle.std.specs.Option.{option_map};
ghost use Rattle.tp_views.specs.JsonMaps.{label_fields, spot_fields};
ghost use Rattle.tp_views.specs.Maps.{row_seen, rows_seen};

use crate::maps::{MapRow, nearest};
use crate::text::parts::Part::{Number, Text};
use crate::text::parts::push_parts;
use std::alloc::AllocError;

/// Appends the fields of a label, and of how far an address is past it.
fn push_label(text: &mut String, label: &Option<MapRow<'_>>, address: u32) -> Result<(), AllocError>
    requires { IfSome label.now (λ row. row.address ≤ address) }
    ensures { OnOk result (string_bytes text.new ≡ string_bytes text.old ++ label_fields address (option_map row_seen label.now)) }
{
    let Some(row) = label else {
        return Ok(());
    };
    let Some(name) = row.label else {
        return Ok(());
    };
    let offset = address - row.address;
    push_parts(
        text,
        &[
            Text(",\"label\":\""),
            Text(name),
            Text("\",\"offset\":"),
            Number(offset as u64),
        ],
    )
}

/// Appends the fields that say what a map says of an address; none if it says nothing.
pub fn push_spot_fields(
    text: &mut String,
    rows: &[MapRow<'_>],
    address: u32,
) -> Result<(), AllocError>
    ensures { OnOk result (string_bytes text.new ≡ string_bytes text.old ++ spot_fields (rows_seen rows.now) address) }
{
    let Some(row) = nearest(rows, false, address) else {
        return Ok(());
    };
    push_label(text, &nearest(rows, true, address), address)?;
    push_parts(text, &[Text(",\"place\":\""), Text(row.place), Text("\"")])
}
