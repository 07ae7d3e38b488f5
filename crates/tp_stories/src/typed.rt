//! Words of a story's line.

use std::alloc::Global;
use std::io;

/// That a line is none of a story.
pub(crate) fn malformed() -> io::Error {
    io::Error::from(io::ErrorKind::InvalidInput)
}

/// A word, and what is after it.
pub(crate) fn parted(words: &str) -> (&str, &str) {
    words.split_once(' ').unwrap_or((words, ""))
}

/// The number that a word is.
pub(crate) fn number_of(word: &str) -> io::Result<u64> {
    match word.parse::<u64>() {
        Ok(number) => Ok(number),
        Err(_) => Err(malformed()),
    }
}

/// How many bytes a word asks for.
pub(crate) fn count_of(word: &str) -> io::Result<usize> {
    match word.parse::<usize>() {
        Ok(count) => Ok(count),
        Err(_) => Err(malformed()),
    }
}

/// The byte that two hexadecimal digits are.
pub(crate) fn byte_of(word: &str) -> io::Result<u8> {
    match u8::from_str_radix(word, 16) {
        Ok(byte) if word.len() == 2 => Ok(byte),
        _ => Err(malformed()),
    }
}

/// The bytes that hexadecimal words are; none if there is no word.
pub(crate) fn bytes_of(alloc: Global, words: &str) -> io::Result<Vec<u8>> {
    let mut bytes = Vec::new(alloc);
    for word in words.split_whitespace() {
        bytes.push(byte_of(word)?)?;
    }
    Ok(bytes)
}

/// The byte after a `\`, and what is after it: `n` is an LF, and `xNN` a byte. None if there is no such byte.
fn escaped(piece: &str) -> Option<(u8, &str)> {
    if let Some(rest) = piece.strip_prefix('n') {
        return Some((b'\n', rest));
    }
    let (digits, rest) = piece.strip_prefix('x')?.split_at_checked(2)?;
    match byte_of(digits) {
        Ok(byte) => Some((byte, rest)),
        Err(_) => None,
    }
}

/// Adds what is after a `\`.
fn add_escaped(bytes: &mut Vec<u8>, piece: &str) -> io::Result<()> {
    let Some((byte, rest)) = escaped(piece) else {
        return Err(malformed());
    };
    bytes.push(byte)?;
    Ok(bytes.extend_from_slice(rest.as_bytes())?)
}

/// The bytes of a text, in which `\n` is an LF, and `\xNN` a byte.
pub(crate) fn text_of(alloc: Global, text: &str) -> io::Result<Vec<u8>> {
    let (front, rest) = text.split_once('\\').unwrap_or((text, ""));
    let mut bytes = Vec::from_slice(alloc, front.as_bytes())?;
    if front.len() < text.len() {
        for piece in rest.split('\\') {
            add_escaped(&mut bytes, piece)?;
        }
    }
    Ok(bytes)
}
