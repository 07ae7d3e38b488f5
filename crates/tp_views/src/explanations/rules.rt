//! Words with values between them, for rules that are broken and for what is on a device.

use crate::text::parts::{Part, push_parts};
use std::alloc::AllocError;

/// A value of no text.
pub(crate) const NOTHING: Part<'static> = Part::Text("");

/// Words, and a value after each of them. The values after the last one that is needed have no text.
#[derive(Clone, Copy)]
pub(crate) struct Rule<const N: usize> {
    pub(crate) words: &'static [&'static str],
    pub(crate) values: [Part<'static>; N],
}

/// Appends the value with this number, counted from 0, if there is one.
fn push_value(text: &mut String, values: &[Part<'_>], at: usize) -> Result<(), AllocError> {
    match values.get(at) {
        Some(value) => push_parts(text, &[*value]),
        None => Ok(()),
    }
}

/// Appends words, and after each of them its value, if there is one.
pub(crate) fn push_words(
    text: &mut String,
    words: &[&str],
    values: &[Part<'_>],
) -> Result<(), AllocError> {
    for (at, word) in words.iter().enumerate() {
        text.push_str(word)?;
        push_value(text, values, at)?;
    }
    Ok(())
}
