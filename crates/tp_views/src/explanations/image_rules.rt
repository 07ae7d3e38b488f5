//! Which rule the bytes of a node's image break.

ghost use Rattle.std.specs.Prelude.{◌≡◌, ◌≢◌, IsSome, None, Some};
ghost use Rattle.tp_model.specs.Image.{node_of};

use crate::explanations::rules::{NOTHING, Rule, push_words};
use crate::text::parts::Part::{Number, Text, Word};
use std::alloc::{AllocError, Global};
use tp_area::image_length;
use tp_model::limits::{IMAGE_HEAD_BYTES, IMAGE_VERSION, MAX_PAGES, MIN_PAGES, SLICE};
use tp_node::image_places::{
    END_BYTES, ERROR_PLACE, HALT_PLACE, OUTPUTS_PLACE, PAGES_PLACE, SLICE_PLACE, STATE_PLACE,
    VERSION_PLACE, WPTR_PLACE,
};
use tp_node::{ImageFault, Node};
use tp_trace::{byte_in, half_in, word_in};

/// Bytes of an image's head, and the most that each may be.
const BYTES: &[(usize, u8, &str)] = &[
    (HALT_PLACE, 4, "the halt code, 0 to 4"),
    (ERROR_PLACE, 1, "the Error flag, 0 or 1"),
    (STATE_PLACE, 2, "the state, 0 idle, 1 high or 2 low"),
];

/// Said if no other rule is broken.
const BAD_END: &[&str] = &["a link end in bytes 44 to 171 of its head breaks its rule"];

/// Said of an image that is shorter than its head.
const SHORT: &[&str] = &["it has ", " bytes, fewer than the ", " of an image's head"];

/// Said of an image of another version.
const VERSION: &[&str] = &["byte 0 of its head, the version, must be ", " and is "];

/// Said of an image with too few or too many pages.
const PAGES: &[&str] = &[
    "bytes 2 and 3 of its head, the pages, must be ",
    " to ",
    " and are ",
];

/// Said of an image whose length doesn't fit its pages.
const LENGTH: &[&str] = &["it must have ", " bytes for ", " pages and has "];

/// Said of an image that has other pages than the topology says.
const WANTED: &[&str] = &["it has ", " pages and the topology says "];

/// Said of a byte of the head that is too great.
const BYTE: &[&str] = &["byte ", " of its head is ", " and must be "];

/// Said of a workspace pointer that isn't at a word.
const WORKSPACE: &[&str] = &[
    "bytes 8 to 11 of its head, Wptr, are ",
    " and must have their two low bits 0",
];

/// Said of a slice that is too long.
const SLICE_COUNT: &[&str] = &[
    "bytes 42 and 43 of its head, the slice count, are ",
    " and must be at most ",
];

/// Said of a link end that is at work.
const BUSY: &[&str] = &[
    "the ",
    " end of link ",
    ", byte ",
    " of its head, must be idle and hold no byte",
];

/// Gives the rule about pages that an image breaks, if the topology asks for `wanted` pages; `None` if it breaks none.
fn wanted_rule(pages: u16, wanted: Option<u16>) -> Option<Rule<3>>
    ensures unasked { wanted ≡ None → result ≡ None }
    ensures right { wanted ≡ Some pages → result ≡ None }
    ensures wrong { wanted ≢ None → wanted ≢ Some pages → IsSome result }
{
    match wanted {
        Some(count) if count != pages => Some(Rule {
            words: WANTED,
            values: [Number(pages as u64), Number(count as u64), NOTHING],
        }),
        _ => None,
    }
}

/// Gives the rule about lengths that an image with a head breaks, if the topology asks for `wanted` pages; `None` if it breaks none.
fn pages_rule(image: &[u8], wanted: Option<u16>) -> Option<Rule<3>> {
    let (length, pages) = (image.len(), half_in(image, PAGES_PLACE));
    let count = usize::from(pages);
    if count < MIN_PAGES || count > MAX_PAGES {
        return Some(Rule {
            words: PAGES,
            values: [
                Number(MIN_PAGES as u64),
                Number(MAX_PAGES as u64),
                Number(count as u64),
            ],
        });
    }
    let full = image_length(pages);
    if length != full {
        return Some(Rule {
            words: LENGTH,
            values: [
                Number(full as u64),
                Number(count as u64),
                Number(length as u64),
            ],
        });
    }
    wanted_rule(pages, wanted)
}

/// Gives the rule about lengths and the version that an image breaks, if the topology asks for `wanted` pages; `None` if it breaks none.
fn length_rule(image: &[u8], wanted: Option<u16>) -> Option<Rule<3>> {
    let length = image.len();
    if length < IMAGE_HEAD_BYTES {
        return Some(Rule {
            words: SHORT,
            values: [
                Number(length as u64),
                Number(IMAGE_HEAD_BYTES as u64),
                NOTHING,
            ],
        });
    }
    let version = byte_in(image, VERSION_PLACE);
    if version != IMAGE_VERSION {
        return Some(Rule {
            words: VERSION,
            values: [
                Number(IMAGE_VERSION as u64),
                Number(version as u64),
                NOTHING,
            ],
        });
    }
    pages_rule(image, wanted)
}

/// Gives the first byte of the head that is too great; `None` if none is.
fn byte_rule(image: &[u8]) -> Option<Rule<3>> {
    for row in BYTES {
        let (at, most, what) = *row;
        let byte = byte_in(image, at);
        if byte > most {
            return Some(Rule {
                words: BYTE,
                values: [Number(at as u64), Number(byte as u64), Text(what)],
            });
        }
    }
    None
}

/// Gives what is wrong with the workspace pointer or the slice count of the head; `None` if nothing is.
fn count_rule(image: &[u8]) -> Option<Rule<3>> {
    let (workspace, slice) = (word_in(image, WPTR_PLACE), half_in(image, SLICE_PLACE));
    if workspace % 4 != 0 {
        return Some(Rule {
            words: WORKSPACE,
            values: [Word(workspace), NOTHING, NOTHING],
        });
    }
    if usize::from(slice) > SLICE {
        return Some(Rule {
            words: SLICE_COUNT,
            values: [Number(slice as u64), Number(SLICE as u64), NOTHING],
        });
    }
    None
}

/// Gives the first link end that is at work; `None` if none is.
fn busy_rule(image: &[u8]) -> Option<Rule<3>> {
    for end in 0..8u8 {
        let at = OUTPUTS_PLACE + END_BYTES * usize::from(end);
        let (state, held) = (byte_in(image, at), byte_in(image, at + 1));
        if state != 0 || held != 0 {
            let (side, link) = if end < 4 {
                ("output", end)
            } else {
                ("input", end - 4)
            };
            return Some(Rule {
                words: BUSY,
                values: [Text(side), Number(link as u64), Number(at as u64)],
            });
        }
    }
    None
}

/// Gives the rule about the bytes of the head that an image breaks; `None` if it breaks none. On a device, ends may be at work.
fn head_rule(image: &[u8], must_be_idle: bool) -> Option<Rule<3>> {
    match byte_rule(image) {
        Some(rule) => Some(rule),
        None => match count_rule(image) {
            Some(rule) => Some(rule),
            None if must_be_idle => busy_rule(image),
            None => None,
        },
    }
}

/// Gives the rule about the ends of links that an image breaks, if it breaks no other one; `None` if it breaks none, or memory runs out.
fn end_rule(alloc: Global, image: &[u8]) -> Option<Rule<3>>
    ensures { IsSome (node_of image.now) → result ≡ None }
{
    match Node::from_image(alloc, image, 0) {
        Err(ImageFault::BadImage) => Some(Rule {
            words: BAD_END,
            values: [NOTHING; 3],
        }),
        _ => None,
    }
}

/// Gives the rule that an image breaks; `None` if it breaks none.
fn rule_of(alloc: Global, image: &[u8], pages: Option<u16>, must_be_idle: bool) -> Option<Rule<3>> {
    if let Some(rule) = length_rule(image, pages) {
        return Some(rule);
    }
    if let Some(rule) = head_rule(image, must_be_idle) {
        return Some(rule);
    }
    end_rule(alloc, image)
}

/// Gives which rule an image breaks, in words; `None` if it breaks none. On a device, ends may be at work.
pub(crate) fn broken_rule(
    alloc: Global,
    image: &[u8],
    pages: Option<u16>,
    must_be_idle: bool,
) -> Result<Option<String>, AllocError> {
    let Some(rule) = rule_of(alloc, image, pages, must_be_idle) else {
        return Ok(None);
    };
    let mut text = String::new(alloc);
    push_words(&mut text, rule.words, &rule.values)?;
    Ok(Some(text))
}
