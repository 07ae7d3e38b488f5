//! What was typed, or is in a file, as a message shows it.

ghost use Rattle.std.specs.Prelude.{◌≡◌, ◌-◌, ◌^◌};

use std::alloc::{AllocError, Global};
use std::fmt;

/// A text in a message. Each of its control characters is shown by its number, as `\x0A` for a new line, so that a terminal obeys none.
#[derive(Clone, Copy)]
pub struct Shown<'a> {
    text: &'a str,
    /// How many characters are shown at most.
    most: usize,
}

/// Whether a text has such a character.
fn has_control(text: &str) -> bool {
    text.chars().any(|character| character.is_control())
}

/// Writes a character as it is shown.
fn write_character<W: fmt::Write>(f: &mut fmt::Formatter<W>, character: char) -> fmt::Result {
    if character.is_control() {
        let number = character as u32;
        write!(f, "\\x{number:02X}")
    } else {
        f.write_char(character)
    }
}

impl<'a> Shown<'a> {
    /// All of a text.
    pub fn all(text: &'a str) -> Shown<'a>
        ensures { (result.text.now ≡ text.now) × (result.most ≡ 2 ^ 64 - 1) }
    {
        Shown {
            text,
            most: usize::MAX,
        }
    }

    /// The first characters of a text, at most `most`, and two dots if it has more.
    pub fn front(text: &'a str, most: usize) -> Shown<'a>
        ensures { (result.text.now ≡ text.now) × (result.most ≡ most) }
    {
        Shown { text, most }
    }
}

impl fmt::Display for Shown<'_> {
    fn fmt<W: fmt::Write>(&self, f: &mut fmt::Formatter<W>) -> fmt::Result {
        for (count, character) in self.text.chars().enumerate() {
            if count == self.most {
                return f.write_str(" ..");
            }
            write_character(f, character)?;
        }
        Ok(())
    }
}

/// Whether one of the words has a character that isn't shown as it is.
fn have_controls(words: &[String]) -> bool {
    for word in words {
        if has_control(word.as_str()) {
            return true;
        }
    }
    false
}

/// The words as a message shows them; `None`: that is as they are.
pub fn shown_words(alloc: Global, words: &[String]) -> Result<Option<Vec<String>>, AllocError> {
    if !have_controls(words) {
        return Ok(None);
    }
    let mut all = Vec::new(alloc);
    for word in words {
        let shown = Shown::all(word.as_str());
        all.push(format!(in alloc; "{shown}")?)?;
    }
    Ok(Some(all))
}
