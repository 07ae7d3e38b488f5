//! Which rule the bytes of a device's head break.

ghost use Rattle.std.specs.Prelude.{◌≡◌, ◌<◌, ◌^◌};
ghost use Rattle.tp_model.specs.Bytes.{u16_at, u64_at};

use crate::explanations::rules::{NOTHING, Rule, push_words};
use crate::text::parts::Part::{Byte, Number};
use std::alloc::AllocError;
use std::fmt::Write;
use tp_area::head_places::{AREA_PLACE, NODES_PLACE, PAGES_PLACE, PORTS_PLACE, ends_place};
use tp_model::HeadVersion;
use tp_model::limits::{
    MAX_PORTS, MIN_PAGES, NARROW_HEAD_NODES, NARROW_HEAD_PAGES, NARROW_PORT, WIDE_HEAD_NODES,
    WIDE_HEAD_PAGES, WIDE_PORT,
};
use tp_trace::byte_in;

/// Said of a wrong number of nodes.
const NODES: &[&str] = &["  byte ", ", the nodes, is ", " and must be 1 to "];

/// Said of a wrong number of ports.
const PORTS: &[&str] = &["  byte ", ", the ports, is ", " and must be 1 to "];

/// Said of a byte that belongs to no field, and isn't 00.
const FILLED: &[&str] = &["  byte ", " is ", " and must be 00"];

/// Said of a node with too few or too many pages.
const PAGES: &[&str] = &[
    "  the pages of node ",
    ", at ",
    ", are ",
    " and must be ",
    " to ",
];

/// Said of pages of a node that doesn't exist.
const NO_NODE: &[&str] = &[
    "  the pages of node ",
    ", at ",
    ", are ",
    ", and there are ",
    " nodes",
];

/// Said of a link to a link that doesn't lead back.
const NOT_BACK: &[&str] = &["link ", " of node ", ", which doesn't lead back"];

/// Said of a link to a port to which another link leads.
const EARLIER: &[&str] = &["port ", ", to which an earlier link leads"];

/// Said of a link that leads to nothing.
const NO_END: &[&str] = &["no link or port that is there"];

/// How many nodes a head of this version has fields for.
fn most_nodes(version: HeadVersion) -> usize {
    match version {
        HeadVersion::Narrow => NARROW_HEAD_NODES,
        HeadVersion::Wide => WIDE_HEAD_NODES,
    }
}

/// How many pages a head of this version can say of a node.
fn most_pages(version: HeadVersion) -> usize {
    match version {
        HeadVersion::Narrow => NARROW_HEAD_PAGES,
        HeadVersion::Wide => WIDE_HEAD_PAGES,
    }
}

/// Gives the number that stands for port 0 in a head of this version.
fn first_port(version: HeadVersion) -> usize {
    match version {
        HeadVersion::Narrow => NARROW_PORT,
        HeadVersion::Wide => WIDE_PORT,
    }
}

/// How many bytes the field has that says where a link leads.
fn end_bytes(version: HeadVersion) -> usize {
    match version {
        HeadVersion::Narrow => 1,
        HeadVersion::Wide => 2,
    }
}

/// Reads the number of two bytes at offset `at`, the low one first.
pub(crate) fn half_at(bytes: &[u8], at: usize) -> u16
    ensures { at < 2 ^ 32 → result ≡ u16_at bytes.now at }
{
    u16::from_le_bytes([byte_in(bytes, at), byte_in(bytes, at.saturating_add(1))])
}

/// Reads the number of eight bytes at offset `at`, the lowest one first.
pub(crate) fn number_at(bytes: &[u8], at: usize) -> u64
    ensures { at < 2 ^ 32 → result ≡ u64_at bytes.now at }
{
    u64::from_le_bytes([
        byte_in(bytes, at),
        byte_in(bytes, at.saturating_add(1)),
        byte_in(bytes, at.saturating_add(2)),
        byte_in(bytes, at.saturating_add(3)),
        byte_in(bytes, at.saturating_add(4)),
        byte_in(bytes, at.saturating_add(5)),
        byte_in(bytes, at.saturating_add(6)),
        byte_in(bytes, at.saturating_add(7)),
    ])
}

/// Gives the offset of the pages of a node.
pub(crate) fn pages_at(node: usize) -> usize {
    PAGES_PLACE.saturating_add(node.saturating_mul(2))
}

/// The bytes of a head, its version, and how many nodes and ports it says.
#[derive(Clone, Copy)]
struct Fields<'a> {
    version: HeadVersion,
    head: &'a [u8],
    nodes: usize,
    ports: usize,
}

impl Fields<'_> {
    /// Gives the offset of the field that says where a link leads.
    fn end_place(self, link: usize) -> usize {
        ends_place(self.version).saturating_add(link.saturating_mul(end_bytes(self.version)))
    }

    /// Gives where a link leads, as a number.
    fn end(self, link: usize) -> usize {
        let at = self.end_place(link);
        match self.version {
            HeadVersion::Narrow => usize::from(byte_in(self.head, at)),
            HeadVersion::Wide => usize::from(half_at(self.head, at)),
        }
    }

    /// Whether no link before this one leads to its end.
    fn is_first(self, link: usize) -> bool {
        for other in 0..link {
            if self.end(other) == self.end(link) {
                return false;
            }
        }
        true
    }

    /// Gives what is wrong with the number of nodes or ports; `None` if nothing is.
    fn counts_rule(self) -> Option<Rule<5>> {
        let (nodes, ports, most) = (self.nodes, self.ports, most_nodes(self.version));
        if nodes < 1 || nodes > most {
            return Some(Rule {
                words: NODES,
                values: [
                    Number(NODES_PLACE as u64),
                    Number(nodes as u64),
                    Number(most as u64),
                    NOTHING,
                    NOTHING,
                ],
            });
        }
        if ports < 1 || ports > MAX_PORTS {
            return Some(Rule {
                words: PORTS,
                values: [
                    Number(PORTS_PLACE as u64),
                    Number(ports as u64),
                    Number(MAX_PORTS as u64),
                    NOTHING,
                    NOTHING,
                ],
            });
        }
        None
    }

    /// Gives which byte of a range isn't 00; `None` if all are.
    fn filled_rule(self, from: usize, to: usize) -> Option<Rule<5>> {
        for at in from..to {
            let byte = byte_in(self.head, at);
            if byte != 0 {
                return Some(Rule {
                    words: FILLED,
                    values: [Number(at as u64), Byte(byte), NOTHING, NOTHING, NOTHING],
                });
            }
        }
        None
    }

    /// Gives what is wrong with the number of pages of a node; `None` if nothing is.
    fn node_rule(self, node: usize) -> Option<Rule<5>> {
        let at = pages_at(node);
        let pages = usize::from(half_at(self.head, at));
        let (place, count) = (Number(at as u64), Number(pages as u64));
        if node >= self.nodes {
            if pages == 0 {
                return None;
            }
            return Some(Rule {
                words: NO_NODE,
                values: [
                    Number(node as u64),
                    place,
                    count,
                    Number(self.nodes as u64),
                    NOTHING,
                ],
            });
        }
        let most = most_pages(self.version);
        if MIN_PAGES <= pages && pages <= most {
            return None;
        }
        Some(Rule {
            words: PAGES,
            values: [
                Number(node as u64),
                place,
                count,
                Number(MIN_PAGES as u64),
                Number(most as u64),
            ],
        })
    }

    /// Gives which node has a wrong number of pages; `None` if none has.
    fn pages_rule(self) -> Option<Rule<5>> {
        for node in 0..most_nodes(self.version) {
            if let Some(rule) = self.node_rule(node) {
                return Some(rule);
            }
        }
        None
    }

    /// Gives what is wrong with a link that leads to no end, or to a link that doesn't lead back.
    fn wrong_end(self, end: usize) -> Rule<5> {
        let (first, other) = (first_port(self.version), end.saturating_sub(1));
        let port = end.saturating_sub(first);
        if end <= self.nodes.saturating_mul(4) {
            let (node, own) = (other / 4, other % 4);
            return Rule {
                words: NOT_BACK,
                values: [
                    Number(own as u64),
                    Number(node as u64),
                    NOTHING,
                    NOTHING,
                    NOTHING,
                ],
            };
        }
        if end >= first && port < self.ports {
            return Rule {
                words: EARLIER,
                values: [Number(port as u64), NOTHING, NOTHING, NOTHING, NOTHING],
            };
        }
        Rule {
            words: NO_END,
            values: [NOTHING; 5],
        }
    }

    /// Whether a link leads nowhere, or to an end that leads back.
    fn is_end(self, link: usize, end: usize) -> bool {
        let first = first_port(self.version);
        let other = end.saturating_sub(1);
        if end == 0 {
            return true;
        }
        if end <= self.nodes.saturating_mul(4) && self.end(other) == link.saturating_add(1) {
            return true;
        }
        end >= first && end.saturating_sub(first) < self.ports && self.is_first(link)
    }

    /// Says what is wrong with the end that a link leads to.
    fn push_end(self, text: &mut String, link: usize, end: usize) -> Result<(), AllocError> {
        let (node, own) = (link / 4, link % 4);
        let at = self.end_place(link);
        write!(
            text,
            "  where link {own} of node {node} leads, at {at}, is {end:X}: "
        )?;
        let rule = self.wrong_end(end);
        push_words(text, rule.words, &rule.values)
    }

    /// Finds the first link that leads to a wrong end, and gives both; `None` if there is none.
    fn wrong_link(self) -> Option<(usize, usize)> {
        for link in 0..self.nodes.saturating_mul(4) {
            let end = self.end(link);
            if !self.is_end(link, end) {
                return Some((link, end));
            }
        }
        None
    }

    /// Gives what is wrong with the fields before those of the links' ends; `None` if nothing is.
    fn front_rule(self) -> Option<Rule<5>> {
        if let Some(rule) = self.counts_rule() {
            return Some(rule);
        }
        match self.filled_rule(PORTS_PLACE + 1, AREA_PLACE) {
            Some(rule) => Some(rule),
            None => self.pages_rule(),
        }
    }

    /// Gives what is wrong with the bytes after the fields; `None` if nothing is.
    fn rest_rule(self) -> Option<Rule<5>> {
        let behind = self.end_place(self.nodes.saturating_mul(4));
        self.filled_rule(behind, self.head.len())
    }
}

/// Appends a rule, if there is one. Answers whether there is.
fn push_found(text: &mut String, rule: Option<Rule<5>>) -> Result<bool, AllocError> {
    match rule {
        Some(rule) => {
            push_words(text, rule.words, &rule.values)?;
            Ok(true)
        }
        None => Ok(false),
    }
}

/// Appends which rule the fields of a head break. Answers whether they break one.
pub(crate) fn push_broken(
    text: &mut String,
    version: HeadVersion,
    head: &[u8],
) -> Result<bool, AllocError> {
    let fields = Fields {
        version,
        head,
        nodes: usize::from(byte_in(head, NODES_PLACE)),
        ports: usize::from(byte_in(head, PORTS_PLACE)),
    };
    if push_found(text, fields.front_rule())? {
        return Ok(true);
    }
    match fields.wrong_link() {
        Some((link, end)) => {
            fields.push_end(text, link, end)?;
            Ok(true)
        }
        None => push_found(text, fields.rest_rule()),
    }
}
