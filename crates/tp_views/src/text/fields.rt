//! What is printed of a thing: a list of fields, as words of a line or as JSON.

ghost use Rattle.std.specs.Prelude.{◌≡◌, ◌++◌, OnOk, if◌then◌else◌, map, string_bytes};
ghost use Rattle.tp_views.specs.Fields.{field_given, field_json, field_line, fields_text, value_given, value_json, value_line};

use crate::text::json::{comma, json_bool};
use std::alloc::AllocError;
use std::fmt::Write;

/// What a field says.
#[derive(Clone, Copy)]
pub(crate) enum Value<'a> {
    /// A number, in decimal.
    Number(u64),
    /// A number that may be longer than 64 bits, in decimal.
    Large(u128),
    /// A byte: two hexadecimal digits; in JSON a number.
    Byte(u8),
    /// A word of a node: eight hexadecimal digits; in JSON a number.
    Word(u32),
    /// A name; in JSON between quotes.
    Name(&'a str),
    /// Whether something is true: 1 or 0; in JSON `true` or `false`.
    Bit(bool),
    /// Whether something is true: yes or no; in JSON `true` or `false`.
    Flag(bool),
    /// By how much a count grew in a second, if that is known: ` +9/s`; in JSON a number or `null`.
    Rate(Option<u128>),
}

/// A field, or what is between fields.
#[derive(Clone, Copy)]
pub(crate) enum Field<'a> {
    /// A value after its name.
    Named(&'a str, Value<'a>),
    /// A value after words of a line, or after words of JSON.
    After(&'a str, &'a str, Value<'a>),
    /// A value that only JSON has, after words.
    InJson(&'a str, Value<'a>),
    /// Words of a line, or of JSON.
    Words(&'a str, &'a str),
    /// Which item of a list it is. A line says its name and number; JSON has a comma after the items before it.
    Item(&'a str, usize),
    /// How many items come before it: JSON has a comma if any do.
    Comma(usize),
}

fn push_value_line(text: &mut String, value: Value<'_>) -> Result<(), AllocError>
    ensures { OnOk result (string_bytes text.new ≡ string_bytes text.old ++ value_line (value_given value.entry)) }
{
    match value {
        Value::Number(number) => write!(text, "{number}"),
        Value::Large(number) => write!(text, "{number}"),
        Value::Byte(byte) => write!(text, "{byte:02X}"),
        Value::Word(word) => write!(text, "{word:08X}"),
        Value::Name(name) => text.push_str(name),
        Value::Bit(is_so) => text.push_str(if is_so { "1" } else { "0" }),
        Value::Flag(is_so) => text.push_str(if is_so { "yes" } else { "no" }),
        Value::Rate(None) => Ok(()),
        Value::Rate(Some(rate)) => write!(text, " +{rate}/s"),
    }
}

fn push_value_json(text: &mut String, value: Value<'_>) -> Result<(), AllocError>
    ensures { OnOk result (string_bytes text.new ≡ string_bytes text.old ++ value_json (value_given value.entry)) }
{
    match value {
        Value::Number(number) => write!(text, "{number}"),
        Value::Large(number) => write!(text, "{number}"),
        Value::Byte(byte) => write!(text, "{byte}"),
        Value::Word(word) => write!(text, "{word}"),
        Value::Name(name) => write!(text, "\"{name}\""),
        Value::Bit(is_so) | Value::Flag(is_so) => text.push_str(json_bool(is_so)),
        Value::Rate(None) => text.push_str("null"),
        Value::Rate(Some(rate)) => write!(text, "{rate}"),
    }
}

fn push_field_line(text: &mut String, field: Field<'_>) -> Result<(), AllocError>
    ensures { OnOk result (string_bytes text.new ≡ string_bytes text.old ++ field_line (field_given field.entry)) }
{
    match field {
        Field::Named(name, value) => {
            write!(text, " {name} ")?;
            push_value_line(text, value)
        }
        Field::After(line, _, value) => {
            text.push_str(line)?;
            push_value_line(text, value)
        }
        Field::InJson(_, _) | Field::Comma(_) => Ok(()),
        Field::Words(line, _) => text.push_str(line),
        Field::Item(name, number) => write!(text, "{name} {number}"),
    }
}

fn push_field_json(text: &mut String, field: Field<'_>) -> Result<(), AllocError>
    ensures { OnOk result (string_bytes text.new ≡ string_bytes text.old ++ field_json (field_given field.entry)) }
{
    match field {
        Field::Named(name, value) => {
            write!(text, ",\"{name}\":")?;
            push_value_json(text, value)
        }
        Field::After(_, words, value) | Field::InJson(words, value) => {
            text.push_str(words)?;
            push_value_json(text, value)
        }
        Field::Words(_, words) => text.push_str(words),
        Field::Item(_, before) | Field::Comma(before) => text.push_str(comma(before)),
    }
}

/// Appends a field, as JSON or as words of a line.
fn push_field(text: &mut String, json: bool, field: Field<'_>) -> Result<(), AllocError>
    ensures { OnOk result (string_bytes text.new ≡ string_bytes text.old ++ (if json then field_json (field_given field.entry) else field_line (field_given field.entry))) }
{
    if json {
        push_field_json(text, field)
    } else {
        push_field_line(text, field)
    }
}

/// Appends fields, one after the other, as JSON or as words of a line.
pub(crate) fn push_fields(
    text: &mut String,
    json: bool,
    fields: &[Field<'_>],
) -> Result<(), AllocError>
    ensures { OnOk result (string_bytes text.new ≡ string_bytes text.old ++ fields_text json (map field_given fields.now)) }
{
    for field in fields {
        push_field(text, json, *field)?;
    }
    Ok(())
}
