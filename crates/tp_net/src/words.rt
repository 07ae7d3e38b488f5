//! The words of a topology's text.

ghost use Rattle.std.specs.Prelude.{◌≡◌, ◌==◌, ◌<◌, if◌then◌else◌, Some, None, length, map, filter, not, get_or, option_copied, position, IfOk, IfSome, MatchOption, ◌∷◌, []};
ghost use Rattle.tp_net.specs.Lower.{option_map, list_all, slice_split, lines, strip_carriage_return, digits_value, has_space_around, is_digit, is_letter, is_link_digit, is_name, is_name_byte, is_pages, is_skipped, named_end, words};
ghost use Rattle.tp_net.specs.Ends.{end_of_parts, link_in};

use std::alloc::{AllocError, Global};
use tp_model::limits::{MAX_NAME, MAX_PAGES, MIN_PAGES};

/// Gives the words of a line, which one or more spaces part.
pub(crate) fn words(alloc: Global, line: &[u8]) -> Result<Vec<&[u8]>, AllocError>
    ensures { IfOk result (λ found. map (λ word. word.now) found.items ≡ words line.now) }
{
    line.split(|byte| *byte == b' ')
        .filter(|word| !word.is_empty())
        .collect(alloc)
}

/// Whether a line begins or ends with a space.
pub(crate) fn has_space_around(line: &[u8]) -> bool
    ensures { result ≡ has_space_around line.now }
{
    line.first() == Some(&b' ') || line.last() == Some(&b' ')
}

/// Whether a line is empty or a comment.
pub(crate) fn is_skipped(line: &[u8]) -> bool
    ensures { result ≡ is_skipped line.now }
{
    line.is_empty() || line[0] == b'#'
}

fn is_letter(byte: u8) -> bool
    ensures { result ≡ is_letter byte }
{
    byte.is_ascii_lowercase()
}

fn is_digit(byte: u8) -> bool
    ensures { result ≡ is_digit byte }
{
    byte.is_ascii_digit()
}

fn is_name_byte(byte: u8) -> bool
    ensures { result ≡ is_name_byte byte }
{
    is_letter(byte) || is_digit(byte) || byte == b'-'
}

fn begins_with_letter(word: &[u8]) -> bool
    ensures { result ≡ is_letter (get_or word.now 0 0) }
{
    !word.is_empty() && is_letter(word[0])
}

fn has_name_bytes(word: &[u8]) -> bool
    ensures { result ≡ list_all is_name_byte word.now }
{
    word.iter().all(|byte| is_name_byte(*byte))
}

/// Whether a word is a name.
fn is_name(word: &[u8]) -> bool
    ensures { result ≡ is_name word.now }
{
    begins_with_letter(word) && word.len() <= MAX_NAME && has_name_bytes(word)
}

fn has_digits(word: &[u8]) -> bool
    ensures { result ≡ list_all is_digit word.now }
{
    word.iter().all(|byte| is_digit(*byte))
}

/// Gives the number of pages that a word says; `None` if it says none that a node may have.
pub(crate) fn pages_in(word: &[u8]) -> Option<u16>
    ensures { result ≡ (if is_pages word.now then Some (digits_value 10 word.now) else None) }
{
    if !has_digits(word) || begins_with_zero(word) {
        return None;
    }
    let mut pages = 0;
    for byte in word {
        pages = pages * 10 + usize::from(byte - b'0');
        if pages > MAX_PAGES {
            return None;
        }
    }
    if pages < MIN_PAGES {
        None
    } else {
        Some(pages as u16)
    }
}

fn begins_with_zero(word: &[u8]) -> bool
    ensures { result ≡ (get_or word.now 0 0 == 48) }
{
    word.first() == Some(&b'0')
}

/// Gives a word as text; `None` if it is no name.
pub(crate) fn name_in(word: &[u8]) -> Option<&str>
    ensures { option_copied result ≡ (if is_name word.now then Some word.now else None) }
{
    if !is_name(word) {
        return None;
    }
    match str::from_utf8(word) {
        Ok(name) => Some(name),
        Err(_) => None,
    }
}

/// The end of a wire as the text names it: a name, with the number of a link or without.
#[derive(Clone, Copy)]
pub(crate) struct EndName<'a> {
    pub(crate) name: &'a str,
    pub(crate) link: Option<u8>,
}

/// Gives the end that a word names; `None` if it names none.
pub(crate) fn end_in(word: &[u8]) -> Option<EndName<'_>>
    ensures { option_map (λ end. (end.name.now, end.link)) result ≡ named_end word.now }
{
    let (front, digits) = cut_at_dot(word);
    let name = name_in(front)?;
    let Some(digits) = digits else {
        return Some(EndName { name, link: None });
    };
    let link = link_in(digits)?;
    Some(EndName {
        name,
        link: Some(link),
    })
}

/// Gives what is before a word's first dot, and what is after it, if there is one.
fn cut_at_dot(word: &[u8]) -> (&[u8], Option<&[u8]>)
    ensures { named_end word.now ≡ end_of_parts result.0.now (option_copied result.1) }
{
    match place_of(b'.', word) {
        Some(at) => (&word[..at], Some(&word[at + 1..])),
        None => (word, None),
    }
}

/// Gives the number of a link; `None` if the word is none.
fn link_in(digits: &[u8]) -> Option<u8>
    ensures { result ≡ link_in digits.now }
{
    match digits {
        [digit @ b'0'..=b'3'] => Some(*digit - b'0'),
        _ => None,
    }
}

fn place_of(byte: u8, bytes: &[u8]) -> Option<usize>
    ensures value { result ≡ position (λ other. other == byte) bytes.now }
    ensures bound { IfSome result (λ at. at < length bytes.now) }
{
    bytes.iter().position(|other| *other == byte)
}

/// Gives the first line of a text, and what follows it; `None` if the text is empty. Lines end in LF, and a CR before it is dropped.
pub(crate) fn next_line(text: &[u8]) -> Option<(&[u8], &[u8])>
    ensures { MatchOption result (lines text.now ≡ []) (λ parts. (lines text.now ≡ parts.0.now ∷ lines parts.1.now) × (length parts.1.now < length text.now)) }
{
    if text.is_empty() {
        return None;
    }
    match place_of(b'\n', text) {
        Some(at) => Some((without_return(&text[..at]), &text[at + 1..])),
        None => Some((text, &text[text.len()..])),
    }
}

fn without_return(line: &[u8]) -> &[u8]
    ensures { result.now ≡ strip_carriage_return line.now }
{
    match line.split_last() {
        Some((b'\r', front)) => front,
        _ => line,
    }
}
