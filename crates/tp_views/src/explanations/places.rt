//! What is at an offset of a device, in words.

use crate::explanations::head_rules::{half_at, number_at, pages_at};
use crate::explanations::rules::{NOTHING, Rule};
use crate::text::parts::Part::Number;
use tp_area::head_places::{AREA_PLACE, NODES_PLACE, PORTS_PLACE};
use tp_area::{FIELDS_BYTES, areas_of_length, image_length};
use tp_model::limits::{LINE_BYTES, MAX_NODES, PORT_BYTES};
use tp_model::{HeadVersion, TwoAreas};
use tp_trace::byte_in;

/// The words for the head of a device.
const HEAD: &[&str] = &["the head of the device, its first ", " bytes"];

/// The words for the front of an area.
const FRONT: &[&str] = &[
    "the front of an area: gate, generation, the cut's length, its base and the form",
];

/// The words for the image of a node.
const IMAGE: &[&str] = &["the image of node ", ", of ", " pages"];

/// The words for the record of a line that a link sends.
const LINK_LINE: &[&str] = &[
    "the record of line ",
    ", which link ",
    " of node ",
    " sends",
];

/// The words for the record of a line that a port sends.
const PORT_LINE: &[&str] = &["the record of line ", ", which port ", " sends"];

/// The words for the record of a port.
const PORT: &[&str] = &["the record of port "];

/// The words for the journal.
const JOURNAL: &[&str] = &["a group of journal entries, or an entry of one"];

/// What a device's head says of the offsets of its records.
#[derive(Clone, Copy)]
pub(crate) struct Layout {
    pub(crate) version: HeadVersion,
    pub(crate) areas: TwoAreas,
    nodes: u64,
    ports: u64,
    pages: [u16; MAX_NODES],
}

/// What is at an offset.
#[derive(Clone, Copy)]
pub(crate) enum Record {
    Head,
    Front,
    Image { node: u64, pages: u16 },
    Line(u64),
    Port(u64),
    Journal,
}

/// A record of a device, and the offset at which it begins.
#[derive(Clone, Copy)]
pub(crate) struct Place {
    pub(crate) record: Record,
    pub(crate) start: u64,
}

/// Gives the layout that a head of this version says.
pub(crate) fn layout_of(version: HeadVersion, head: &[u8]) -> Layout {
    let mut pages = [0u16; MAX_NODES];
    for (node, count) in pages.iter_mut().enumerate() {
        *count = half_at(head, pages_at(node));
    }
    Layout {
        version,
        areas: areas_of_length(version, number_at(head, AREA_PLACE)),
        nodes: u64::from(byte_in(head, NODES_PLACE)),
        ports: u64::from(byte_in(head, PORTS_PLACE)),
        pages,
    }
}

impl Layout {
    /// Gives the offset at which the second area begins.
    pub(crate) fn second(&self) -> u64 {
        self.areas.first.saturating_add(self.areas.length)
    }

    /// Gives what begins at the offset of a damaged record.
    pub(crate) fn place(&self, at: u64) -> Place {
        let first = self.areas.first;
        if at < first {
            return Place {
                record: Record::Head,
                start: 0,
            };
        }
        let start = if at >= self.second() {
            self.second()
        } else {
            first
        };
        let images = start.saturating_add(1 + FIELDS_BYTES as u64);
        if at < images {
            return Place {
                record: Record::Front,
                start,
            };
        }
        let mut next = images;
        for (node, pages) in self.pages.iter().enumerate() {
            if (node as u64) < self.nodes {
                let end = next.saturating_add(image_length(*pages) as u64);
                if at < end {
                    let record = Record::Image {
                        node: node as u64,
                        pages: *pages,
                    };
                    return Place {
                        record,
                        start: next,
                    };
                }
                next = end;
            }
        }
        self.behind_images(at, next)
    }

    /// Gives what is at offset `at`, after the images, if the records of lines begin at `lines`.
    fn behind_images(&self, at: u64, lines: u64) -> Place {
        let line = at.saturating_sub(lines) / LINE_BYTES as u64;
        let count = self.nodes.saturating_mul(4).saturating_add(self.ports);
        if line < count {
            let start = lines.saturating_add(line.saturating_mul(LINE_BYTES as u64));
            return Place {
                record: Record::Line(line),
                start,
            };
        }
        let ports = lines.saturating_add(count.saturating_mul(LINE_BYTES as u64));
        let port = at.saturating_sub(ports) / PORT_BYTES as u64;
        if port < self.ports {
            let start = ports.saturating_add(port.saturating_mul(PORT_BYTES as u64));
            return Place {
                record: Record::Port(port),
                start,
            };
        }
        Place {
            record: Record::Journal,
            start: at,
        }
    }

    /// Gives the words for the record of a line.
    fn line_words(&self, line: u64) -> Rule<3> {
        let links = self.nodes.saturating_mul(4);
        if line < links {
            return Rule {
                words: LINK_LINE,
                values: [Number(line), Number(line % 4), Number(line / 4)],
            };
        }
        Rule {
            words: PORT_LINE,
            values: [Number(line), Number(line.saturating_sub(links)), NOTHING],
        }
    }

    /// Gives the words for a record.
    pub(crate) fn record_words(&self, record: Record) -> Rule<3> {
        let (words, first, second) = match record {
            Record::Line(line) => return self.line_words(line),
            Record::Head => (HEAD, Number(self.areas.first), NOTHING),
            Record::Front => (FRONT, NOTHING, NOTHING),
            Record::Image { node, pages } => (IMAGE, Number(node), Number(pages as u64)),
            Record::Port(port) => (PORT, Number(port), NOTHING),
            Record::Journal => (JOURNAL, NOTHING, NOTHING),
        };
        Rule {
            words,
            values: [first, second, NOTHING],
        }
    }
}
