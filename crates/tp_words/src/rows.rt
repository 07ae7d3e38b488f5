//! What the table of a command says of its places and options.

ghost use Rattle.std.specs.Prelude.{◌≡◌, map};
ghost use Rattle.tp_words.specs.Rows.{row_of};

use crate::words::Word;

/// How a place or an option is typed.
#[derive(Clone, Copy)]
pub enum Kind {
    /// As a word of its own, at its place.
    Place,
    /// An option without a value.
    Flag,
    /// An option with a value.
    Value,
    /// An option with a value, which may be there several times.
    Values,
}

/// Its name.
pub fn id_of(word: &Word) -> &'static str
    ensures { result.now ≡ (row_of word.now).id }
{
    match *word {
        Word::Place(id, _)
        | Word::Instead(id, _, _)
        | Word::Flag(id, _)
        | Word::Mark(id, _)
        | Word::Unless(id, _, _)
        | Word::Value(id, _, _)
        | Word::Needed(id, _, _)
        | Word::Alone(id, _, _, _)
        | Word::Many(id, _, _) => id,
    }
}

/// How it is typed.
pub fn kind_of(word: &Word) -> Kind
    ensures { result ≡ (row_of word.now).kind }
{
    match *word {
        Word::Place(_, _) | Word::Instead(_, _, _) => Kind::Place,
        Word::Flag(_, _) | Word::Mark(_, _) | Word::Unless(_, _, _) => Kind::Flag,
        Word::Value(_, _, _) | Word::Needed(_, _, _) | Word::Alone(_, _, _, _) => Kind::Value,
        Word::Many(_, _, _) => Kind::Values,
    }
}

/// Whether it has to be there.
pub fn is_needed(word: &Word) -> bool
    ensures { result ≡ (row_of word.now).is_needed }
{
    matches!(
        *word,
        Word::Place(_, _) | Word::Mark(_, _) | Word::Needed(_, _, _)
    )
}

/// The options that may not be beside it.
pub fn apart_of(word: &Word) -> &'static [&'static str]
    ensures { map (λ other. other.now) result.now ≡ (row_of word.now).apart }
{
    match *word {
        Word::Instead(_, others, _) | Word::Unless(_, others, _) | Word::Alone(_, _, others, _) =>
            others,
        _ => &[],
    }
}
