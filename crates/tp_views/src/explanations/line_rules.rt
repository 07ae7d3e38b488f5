//! Which rule a malformed line of a topology's text breaks: docs/FORMATS.md, section 7.

use tp_model::limits::{MAX_NAME, MAX_PAGES, MIN_PAGES};

/// A rule that a line breaks, and the word that breaks it. The word is empty if it can't be shown.
#[derive(Clone, Copy)]
pub(crate) struct Broken<'a> {
    pub(crate) word: &'a str,
    pub(crate) rule: &'static str,
}

const SPACE_BEFORE: &str = "a space is before its first word: remove it";

const SPACE_BEHIND: &str = "a space follows its last word: remove it";

const CONTROL: &str =
    "it has a tab or another control character: only spaces part words, and a CR is dropped only right before an LF";

const FIRST_WORD: &str = "a line begins with node, port or wire, or with # as a comment";

const NAME_MISSING: &str = "the name before the dot is missing";

const NAME_FIRST: &str = "a name begins with a letter from a to z";

const NAME_BYTES: &str = "a name has only letters from a to z, digits and -";

const NAME_LONG: &str = "a name has at most 16 characters";

const NAME_TAKEN: &str = "a line above declares this name: each node and port needs its own";

const PAGES_SPELT: &str = "PAGES is a decimal number without a sign or leading zeros";

const PAGES_RANGE: &str = "a node has from 4 to 1024 pages";

const LINK: &str = "after the dot comes the number of a link, one digit from 0 to 3";

const PORT_LINK: &str = "this is a port, which has no links: leave out the dot and the number";

const NODE_LINK: &str = "this is a node, and a wire joins one of its links: add .0, .1, .2 or .3";

const TWO_PORTS: &str = "both ends are ports: one of them has to be a link of a node";

const NO_NODE: &str = "it has no node: a line node NAME PAGES is missing";

const NO_PORT: &str = "it has no port: a line port NAME is missing";

const NEITHER: &str =
    "it has no node and no port: a line node NAME PAGES and a line port NAME are missing";

const OTHER: &str = "a line is node NAME PAGES, port NAME, wire END END, empty or a comment";

/// How many words a line has that begins with this word, and what is said of another number of words.
#[derive(Clone, Copy)]
struct Shape {
    kind: &'static [u8],
    count: usize,
    few: &'static str,
    many: &'static str,
}

const SHAPES: &[Shape] = &[
    Shape {
        kind: b"node",
        count: 3,
        few: "a word is missing: the line of a node is node NAME PAGES",
        many: "this word is one too many: the line of a node is node NAME PAGES",
    },
    Shape {
        kind: b"port",
        count: 2,
        few: "a word is missing: the line of a port is port NAME",
        many: "this word is one too many: the line of a port is port NAME",
    },
    Shape {
        kind: b"wire",
        count: 3,
        few: "a word is missing: the line of a wire is wire END END",
        many: "this word is one too many: the line of a wire is wire END END",
    },
];

/// Gives a word as text; empty if it isn't text.
fn text_of(word: &[u8]) -> &str {
    str::from_utf8(word).unwrap_or_default()
}

/// Gives a rule that a line breaks as a whole.
fn by_line<'a>(rule: &'static str) -> Option<Broken<'a>> {
    Some(Broken { word: "", rule })
}

/// Gives a rule that a word breaks.
fn by_word<'a>(word: &'a [u8], rule: &'static str) -> Option<Broken<'a>> {
    Some(Broken {
        word: text_of(word),
        rule,
    })
}

/// Gives a line without the CR at its end.
fn without_return(line: &[u8]) -> &[u8] {
    match line.split_last() {
        Some((b'\r', front)) => front,
        _ => line,
    }
}

/// Gives the word of a line with this number, counted from 0.
fn word_at(line: &[u8], number: usize) -> Option<&[u8]> {
    line.split(|byte| *byte == b' ')
        .filter(|word| !word.is_empty())
        .nth(number)
}

/// Gives the first word of a line, if the line declares this name.
fn kind_in<'a>(line: &'a [u8], name: &[u8]) -> Option<&'a [u8]> {
    let kind = word_at(line, 0)?;
    let declares = kind == b"node".as_slice() || kind == b"port".as_slice();
    if declares && word_at(line, 1)? == name {
        Some(kind)
    } else {
        None
    }
}

/// Gives the first word of the line that declares this name; `None` if none of these lines does.
fn kind_of<'a>(lines: &'a [u8], name: &[u8]) -> Option<&'a [u8]> {
    for line in lines.split(|byte| *byte == b'\n') {
        let kind = kind_in(without_return(line), name);
        if kind.is_some() {
            return kind;
        }
    }
    None
}

/// Whether one of the lines of a text begins with this word.
fn has_kind(text: &[u8], kind: &[u8]) -> bool {
    for line in text.split(|byte| *byte == b'\n') {
        if word_at(line, 0) == Some(kind) {
            return true;
        }
    }
    false
}

/// Gives what is missing in a text that says no topology, though all its lines are sound.
pub(crate) fn missing(text: &[u8]) -> &'static str {
    match (has_kind(text, b"node"), has_kind(text, b"port")) {
        (false, false) => NEITHER,
        (false, true) => NO_NODE,
        _ => NO_PORT,
    }
}

/// Gives which rule about spaces and control characters a line breaks; `None` if it breaks none.
fn spaces_rule(line: &[u8]) -> Option<Broken<'_>> {
    if line.first() == Some(&b' ') {
        return by_line(SPACE_BEFORE);
    }
    if line.last() == Some(&b' ') {
        return by_line(SPACE_BEHIND);
    }
    if line.iter().any(|byte| byte.is_ascii_control()) {
        return by_line(CONTROL);
    }
    None
}

/// Gives which rule about its first word or the number of its words a line breaks; `None` if it breaks none.
fn count_rule(line: &[u8]) -> Option<Broken<'_>> {
    let kind = word_at(line, 0)?;
    for shape in SHAPES {
        if kind != shape.kind {
            continue;
        }
        if word_at(line, shape.count.saturating_sub(1)).is_none() {
            return by_line(shape.few);
        }
        return by_word(word_at(line, shape.count)?, shape.many);
    }
    by_word(kind, FIRST_WORD)
}

fn is_name_byte(byte: u8) -> bool {
    byte.is_ascii_lowercase() || byte.is_ascii_digit() || byte == b'-'
}

/// Gives which rule about names `name` breaks, which is in `word`.
fn name_rule<'a>(word: &'a [u8], name: &[u8]) -> Option<Broken<'a>> {
    let Some(first) = name.first() else {
        return by_word(word, NAME_MISSING);
    };
    if !first.is_ascii_lowercase() {
        return by_word(word, NAME_FIRST);
    }
    if !name.iter().all(|byte| is_name_byte(*byte)) {
        return by_word(word, NAME_BYTES);
    }
    if name.len() > MAX_NAME {
        return by_word(word, NAME_LONG);
    }
    None
}

/// Gives which rule about pages a word breaks; `None` if it breaks none.
fn pages_rule(word: &[u8]) -> Option<Broken<'_>> {
    let is_decimal = word.iter().all(|byte| byte.is_ascii_digit());
    if !is_decimal || matches!(word, [b'0', _, ..]) {
        return by_word(word, PAGES_SPELT);
    }
    match text_of(word).parse::<usize>() {
        Ok(MIN_PAGES..=MAX_PAGES) => None,
        _ => by_word(word, PAGES_RANGE),
    }
}

/// Gives the rule that a name breaks if a line above has that name.
fn taken_rule<'a>(above: &[u8], name: &'a [u8]) -> Option<Broken<'a>> {
    kind_of(above, name)?;
    by_word(name, NAME_TAKEN)
}

/// Gives a word up to its first dot, and what comes after the dot, if it has one.
fn cut_at_dot(word: &[u8]) -> (&[u8], Option<&[u8]>) {
    match word.iter().position(|byte| *byte == b'.') {
        Some(at) => (
            word.get(..at).unwrap_or(word),
            word.get(at.saturating_add(1)..),
        ),
        None => (word, None),
    }
}

/// Gives which rule the end of a wire breaks by itself; `None` if it breaks none.
fn end_rule(word: &[u8]) -> Option<Broken<'_>> {
    let (name, link) = cut_at_dot(word);
    let broken = name_rule(word, name);
    match link {
        None | Some([b'0'..=b'3']) => broken,
        Some(_) => broken.or(by_word(word, LINK)),
    }
}

/// Gives which rule the end of a wire breaks, by what the lines above declare; `None` if it breaks none.
fn kind_rule<'a>(above: &[u8], word: &'a [u8]) -> Option<Broken<'a>> {
    let (name, link) = cut_at_dot(word);
    let is_port = kind_of(above, name)? == b"port".as_slice();
    match (is_port, link) {
        (true, Some(_)) => by_word(word, PORT_LINK),
        (false, None) => by_word(word, NODE_LINK),
        _ => None,
    }
}

/// Gives which rule a wire breaks by its ends; `None` if it breaks none.
fn wire_rule<'a>(above: &[u8], first: &'a [u8], second: &'a [u8]) -> Option<Broken<'a>> {
    end_rule(first)
        .or(end_rule(second))
        .or(kind_rule(above, first))
        .or(kind_rule(above, second))
        .or(by_line(TWO_PORTS))
}

/// Gives which rule a line breaks by its words, if their number is right; `None` if it breaks none.
fn words_rule<'a>(above: &[u8], line: &'a [u8]) -> Option<Broken<'a>> {
    let (kind, first) = (word_at(line, 0)?, word_at(line, 1)?);
    let Some(second) = word_at(line, 2) else {
        return name_rule(first, first).or(taken_rule(above, first));
    };
    if kind == b"wire".as_slice() {
        return wire_rule(above, first, second);
    }
    name_rule(first, first)
        .or(pages_rule(second))
        .or(taken_rule(above, first))
}

/// Gives which rule a malformed line breaks. `above` are the lines above it, which have no fault.
pub(crate) fn broken_rule<'a>(above: &[u8], line: &'a [u8]) -> Broken<'a> {
    let broken = spaces_rule(line)
        .or(count_rule(line))
        .or(words_rule(above, line));
    match broken {
        Some(broken) => broken,
        None => Broken {
            word: "",
            rule: OTHER,
        },
    }
}
