//! Maps, which say at which addresses a source's labels and instructions are. This file reads what `tools/assemble --map` writes, and finds what a
//! map says of an address.

ghost use Rattle.std.specs.Prelude.{◌≡◌, ◌++◌, ◌<◌, ◌≤◌, ◌∷◌, ◌==◌, false, true, if◌then◌else◌, Some, None, Ok, IfErr, IfOk, IfSome, OnOk, length, option_copied, position, string_bytes};
ghost use Rattle.tp_views.specs.Lower.{list_all, slice_split, option_map, digits_value};
ghost use Rattle.tp_views.specs.Maps.{IsMapFault, address_of, after_line, counts, has_line, is_address, is_hex_digit, is_labelled, is_name, is_nearer, is_of_number, is_place, is_plain, is_text, label_in, label_part, least, line_row, nearest, parts_behind, read_map, row_if, row_seen, rows_seen, spot_text};

use crate::text::parts::Part::{Number, Text};
use crate::text::parts::push_parts;
use std::alloc::{AllocError, Global};

/// A line of a map: an address, the label there if the line is a label's, and the source's file and line, such as `send.asm:12`.
#[derive(Clone, Copy)]
pub struct MapRow<'a> {
    pub address: u32,
    pub label: Option<&'a str>,
    pub place: &'a str,
}

/// The base in which addresses are spelt.
const HEXADECIMAL: u32 = 16;

/// Why a text wasn't read as a map.
#[derive(Clone, Copy)]
pub enum MapFault {
    /// This line, counted from 1, isn't one of a map.
    Line(u64),
    /// Out of memory.
    Memory,
}

fn is_hex_digit(byte: u8) -> bool
    ensures { result ≡ is_hex_digit byte }
{
    byte.is_ascii_digit() || (byte >= b'A' && byte <= b'F')
}

fn has_hex_digits(word: &[u8]) -> bool
    ensures { result ≡ list_all is_hex_digit word.now }
{
    word.iter().all(|byte| is_hex_digit(*byte))
}

/// Whether a word spells an address: eight hexadecimal digits, with capital letters.
fn is_address(word: &[u8]) -> bool
    ensures { result ≡ is_address word.now }
{
    word.len() == 8 && has_hex_digits(word)
}

/// Gives the address that a word spells; `None` if it spells none.
pub(crate) fn address_in(word: &[u8]) -> Option<u32>
    ensures { result ≡ (if is_address word.now then Some (digits_value 16 word.now) else None) }
{
    if !is_address(word) {
        return None;
    }
    let Ok(digits) = str::from_utf8(word) else {
        return None;
    };
    match u32::from_str_radix(digits, HEXADECIMAL) {
        Ok(address) => Some(address),
        Err(_) => None,
    }
}

/// Whether a byte can be in a text for scripts as it is.
fn is_plain(byte: u8) -> bool
    ensures { result ≡ is_plain byte }
{
    byte >= b' ' && byte != b'"' && byte != b'\\' && byte != 127
}

fn has_plain_bytes(bytes: &[u8]) -> bool
    ensures { result ≡ list_all is_plain bytes.now }
{
    bytes.iter().all(|byte| is_plain(*byte))
}

/// Gives bytes as text, if they are UTF-8 and each byte is plain; else `None`.
fn text_in(bytes: &[u8]) -> Option<&str>
    ensures { option_copied result ≡ (if is_text bytes.now then Some bytes.now else None) }
{
    if !has_plain_bytes(bytes) {
        return None;
    }
    match str::from_utf8(bytes) {
        Ok(text) => Some(text),
        Err(_) => None,
    }
}

/// Gives the name that a word is; `None` if it is none.
fn name_in(word: &[u8]) -> Option<&str>
    ensures { option_copied result ≡ (if is_name word.now then Some word.now else None) }
{
    if word.is_empty() {
        return None;
    }
    text_in(word)
}

/// Whether a byte begins the number of a line, or continues it.
fn is_of_number(is_colon: bool, is_number: bool, byte: u8) -> bool
    ensures { result ≡ is_of_number is_colon is_number byte }
{
    (is_colon || is_number) && byte.is_ascii_digit()
}

/// Whether a place ends with a colon and the number of a line.
fn has_line(place: &[u8]) -> bool
    ensures { result ≡ has_line place.now }
{
    let (mut is_colon, mut is_number) = (false, false);
    for byte in place {
        is_number = is_of_number(is_colon, is_number, *byte);
        is_colon = *byte == b':';
    }
    is_number
}

/// Gives the source's file and line that bytes name; `None` if they name none.
fn place_in(bytes: &[u8]) -> Option<&str>
    ensures { option_copied result ≡ (if is_place bytes.now then Some bytes.now else None) }
{
    if !has_line(bytes) {
        return None;
    }
    text_in(bytes)
}

/// Gives the label that a name is; `None` for `-`.
fn label_in(name: &str) -> Option<&str>
    ensures { option_copied result ≡ label_in name.now }
{
    if name.as_bytes() == b"-".as_slice() {
        None
    } else {
        Some(name)
    }
}

/// Gives the row of these words; `None` if they aren't those of a row.
fn row_of<'a>(word: &[u8], name: &'a [u8], place: &'a [u8]) -> Option<MapRow<'a>>
    ensures { option_map row_seen result ≡ row_if word.now name.now place.now }
{
    let address = address_in(word)?;
    let name = name_in(name)?;
    let place = place_in(place)?;
    Some(MapRow {
        address,
        label: label_in(name),
        place,
    })
}

fn place_of(byte: u8, bytes: &[u8]) -> Option<usize>
    ensures value { result ≡ position (λ other. other == byte) bytes.now }
    ensures bound { IfSome result (λ at. at < length bytes.now) }
{
    bytes.iter().position(|other| *other == byte)
}

/// Gives the row that a line is; `None` if it isn't one.
fn row_in(line: &[u8]) -> Option<MapRow<'_>>
    ensures { option_map row_seen result ≡ line_row line.now }
{
    if line.len() < 9 || line[8] != b' ' {
        return None;
    }
    let rest = &line[9..];
    let at = place_of(b' ', rest)?;
    row_of(&line[..8], &rest[..at], &rest[at + 1..])
}

/// Gives the first line of a text, and what comes after its end, if it has an end.
fn first_line(text: &[u8]) -> (&[u8], Option<&[u8]>)
    ensures cut { slice_split (λ byte. byte == 10) text.now ≡ result.0.now ∷ parts_behind (option_copied result.1) }
    ensures shorter { IfSome result.1 (λ rest. length rest.now < length text.now) }
{
    match place_of(b'\n', text) {
        Some(at) => (&text[..at], Some(&text[at + 1..])),
        None => (text, None),
    }
}

/// Adds a line, with its number counted from 1. Fails with that number if the line isn't one of a map.
fn add_line<'a>(rows: &mut Vec<MapRow<'a>>, number: u64, line: &'a [u8]) -> Result<(), MapFault>
    ensures ok { OnOk result (after_line (rows_seen rows.old.items) number line.now ≡ Ok (rows_seen rows.new.items)) }
    ensures err { IfErr result (IsMapFault (after_line (rows_seen rows.old.items) number line.now)) }
{
    if line.is_empty() {
        return Ok(());
    }
    let Some(row) = row_in(line) else {
        return Err(MapFault::Line(number));
    };
    let Ok(()) = rows.push(row) else {
        return Err(MapFault::Memory);
    };
    Ok(())
}

/// Reads a map: a line for each label and each instruction of a source. Fails with the first line that isn't one of a map.
pub fn read_map(alloc: Global, text: &[u8]) -> Result<Vec<MapRow<'_>>, MapFault>
    ensures ok { IfOk result (λ rows. read_map text.now ≡ Ok (rows_seen rows.items)) }
    ensures err { IfErr result (IsMapFault (read_map text.now)) }
{
    let mut rows = Vec::new(alloc);
    let (mut number, mut rest) = (1, Some(text));
    while let Some(text) = rest {
        let (line, behind) = first_line(text);
        add_line(&mut rows, number, line)?;
        number += 1;
        rest = behind;
    }
    Ok(rows)
}

/// Whether a row counts: all do, or only those of labels.
fn counts(of_labels: bool, row: &MapRow<'_>) -> bool
    ensures { result ≡ counts of_labels (row_seen row.now) }
{
    !of_labels || row.label.is_some()
}

/// Gives the address of a row that was found; 0 if none was.
fn least(found: &Option<MapRow<'_>>) -> u32
    ensures { result ≡ least (option_map row_seen found.now) }
{
    match found {
        Some(row) => row.address,
        None => 0,
    }
}

/// Whether a row counts, and is at or below an address, and no further from it than the row that was found.
fn is_nearer(found: &Option<MapRow<'_>>, of_labels: bool, address: u32, row: &MapRow<'_>) -> bool
    ensures is { result ≡ is_nearer (option_map row_seen found.now) of_labels address (row_seen row.now) }
    ensures below { result ≡ true → row.now.address ≤ address }
{
    counts(of_labels, row) && least(found) <= row.address && row.address <= address
}

/// Finds the row that counts and is the nearest at or below an address; the last one if several are at one address.
pub(crate) fn nearest<'a>(rows: &[MapRow<'a>], of_labels: bool, address: u32) -> Option<MapRow<'a>>
    ensures is { option_map row_seen result ≡ nearest of_labels address (rows_seen rows.now) }
    ensures below { IfSome result (λ row. row.address ≤ address) }
{
    let mut found = None;
    for row in rows {
        if is_nearer(&found, of_labels, address, row) {
            found = Some(*row);
        }
    }
    found
}

/// Whether a row has this label.
fn is_labelled(label: &str, row: &MapRow<'_>) -> bool
    ensures { result ≡ is_labelled label.now (option_copied row.now.label) }
{
    match row.label {
        Some(other) => other.as_bytes() == label.as_bytes(),
        None => false,
    }
}

/// Gives the address of a label; that of the first one if several have this name.
pub fn address_of(rows: &[MapRow<'_>], label: &str) -> Option<u32>
    ensures { result ≡ address_of label.now (rows_seen rows.now) }
{
    for row in rows {
        if is_labelled(label, row) {
            return Some(row.address);
        }
    }
    None
}

/// Appends a label, and how far an address is past it.
fn push_label(text: &mut String, label: &Option<MapRow<'_>>, address: u32) -> Result<(), AllocError>
    requires { IfSome label.now (λ row. row.address ≤ address) }
    ensures { OnOk result (string_bytes text.new ≡ string_bytes text.old ++ label_part address (option_map row_seen label.now)) }
{
    let Some(row) = label else {
        return Ok(());
    };
    let Some(name) = row.label else {
        return Ok(());
    };
    let offset = address - row.address;
    push_parts(
        text,
        &[Text(" "), Text(name), Text("+"), Number(offset as u64)],
    )
}

/// Appends what a map says of an address after these words, such as ` send+3 (send.asm:12)`. If the map has no row at or below the address, nothing
/// is appended.
pub fn push_spot(
    text: &mut String,
    words: &str,
    rows: &[MapRow<'_>],
    address: u32,
) -> Result<(), AllocError>
    ensures { OnOk result (string_bytes text.new ≡ string_bytes text.old ++ spot_text words.now (rows_seen rows.now) address) }
{
    let Some(row) = nearest(rows, false, address) else {
        return Ok(());
    };
    text.push_str(words)?;
    push_label(text, &nearest(rows, true, address), address)?;
    push_parts(text, &[Text(" ("), Text(row.place), Text(")")])
}
