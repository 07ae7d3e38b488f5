//! Texts as lists of parts, which one loop appends.

ghost use Rattle.std.specs.Prelude.{◌≡◌, ◌++◌, OnOk, string_bytes};
ghost use Rattle.tp_views.specs.Parts.{part_text, parts_text};

use std::alloc::AllocError;
use std::fmt::Write;

/// A part of a text.
#[derive(Clone, Copy)]
pub(crate) enum Part<'a> {
    /// Words as they are.
    Text(&'a str),
    /// A number, in decimal.
    Number(u64),
    /// A number that may be longer than 64 bits, in decimal.
    Large(u128),
    /// A byte, as two hexadecimal digits.
    Byte(u8),
    /// A word of a node, as eight hexadecimal digits.
    Word(u32),
}

/// Appends a part.
fn push_part(text: &mut String, part: Part<'_>) -> Result<(), AllocError>
    ensures { OnOk result (string_bytes text.new ≡ string_bytes text.old ++ part_text part.entry) }
{
    match part {
        Part::Text(words) => text.push_str(words),
        Part::Number(number) => write!(text, "{number}"),
        Part::Large(number) => write!(text, "{number}"),
        Part::Byte(byte) => write!(text, "{byte:02X}"),
        Part::Word(word) => write!(text, "{word:08X}"),
    }
}

/// Appends parts, one after the other.
pub(crate) fn push_parts(text: &mut String, parts: &[Part<'_>]) -> Result<(), AllocError>
    ensures { OnOk result (string_bytes text.new ≡ string_bytes text.old ++ parts_text parts.now) }
{
    for part in parts {
        push_part(text, *part)?;
    }
    Ok(())
}
