//! Stories of turns: of one node, entry by entry; and of turns that are one entry, with Markers after what they take, and a full journal.

use crate::deeds::Deed;
use crate::drawn::tasks_device;
use crate::machines::Task;
use crate::network::Net;
use crate::replayed::both_of;
use crate::turn_stories::{Step, Steps, Story, first_other, plays};
use std::alloc::Global;
use std::test::Fail;
use tp_book::Refusal;
use tp_model::Entry;
use tp_model::Received::{AckThenData, JustAck, JustData, Nothing};
use tp_model::Token::{Ack, Data};
use tp_tests_fixtures::ONE_NODE;

/// A node that sends the byte 58 on link 0, and one that it is wired to.
const TWO: &[u8] = b"node a 4\nnode b 4\nport h\nwire a.0 b.0\nwire a.3 h\n";

/// Two nodes with two wires between them, by links of one number and of two.
const STRAIGHT: &[u8] = b"node a 4\nnode b 4\nport h\nwire a.0 b.0\nwire a.1 b.1\nwire b.3 h\n";

const CROSSED: &[u8] = b"node a 4\nnode b 4\nport h\nwire a.0 b.1\nwire a.1 b.0\nwire a.3 h\n";

/// A node whose links 1 and 2 are wired together.
const SELF: &[u8] = b"node a 4\nport h\nwire a.1 a.2\nwire a.3 h\n";

/// The node sends its letter; the host takes it; the node takes the acknowledge, and makes a whole turn's steps.
const LETTER_SENT: Entry = Entry::Run { node: 0, count: 3 };

const LETTER_TAKEN: Entry = Entry::Take {
    line: 0,
    token: Data(b'A'),
};

const LETTER_ACKNOWLEDGED: Entry = Entry::Turn {
    node: 0,
    takes: [JustAck, Nothing, Nothing, Nothing],
    count: 16,
};

/// What four turns make, of the node and the host in turns: the node runs up to the acknowledge that it waits for, the port takes the letter, and the
/// node takes the acknowledge and loops.
const FOUR_TURNS: Story<'static> = Story {
    text: ONE_NODE,
    tasks: &[&[Task::Letters]],
    steps: [
        Some((Step::Node(0, 16), 0, 1, None, None)),
        Some((Step::Host, 1, 2, None, None)),
        Some((Step::Node(0, 16), 1, 4, None, None)),
        Some((Step::Host, 0, 4, None, None)),
        None,
        None,
    ],
    spare: 4,
    entries: [
        Some((0, LETTER_SENT)),
        Some((1, LETTER_TAKEN)),
        Some((
            2,
            Entry::Take {
                line: 4,
                token: Ack,
            },
        )),
        Some((3, Entry::Run { node: 0, count: 16 })),
    ],
    cut: None,
};

/// What they make if a node's turn is one entry.
const ONE_ENTRY: Story<'static> = Story {
    text: ONE_NODE,
    tasks: &[&[Task::Letters]],
    steps: [
        Some((Step::Whole(0, 16), 0, 1, None, None)),
        Some((Step::Host, 1, 2, None, None)),
        Some((Step::Whole(0, 16), 1, 3, None, None)),
        Some((Step::Host, 0, 3, None, None)),
        None,
        None,
    ],
    spare: 4,
    entries: [
        Some((0, LETTER_SENT)),
        Some((1, LETTER_TAKEN)),
        Some((2, LETTER_ACKNOWLEDGED)),
        None,
    ],
    cut: None,
};

/// The Marker is after the acknowledge. The turn takes that, and the next one closes the line.
const MARKER_BEHIND: Story<'static> = Story {
    text: ONE_NODE,
    tasks: &[&[Task::Letters]],
    steps: [
        Some((Step::Whole(0, 16), 0, 1, None, None)),
        Some((Step::Host, 1, 2, None, None)),
        Some((Step::Begin, 0, 2, None, None)),
        Some((Step::Whole(0, 16), 1, 3, Some(0), Some(4))),
        Some((Step::Whole(0, 16), 0, 4, Some(0), None)),
        Some((Step::Host, 0, 4, None, None)),
    ],
    spare: 0,
    entries: [
        Some((0, LETTER_SENT)),
        Some((1, LETTER_TAKEN)),
        Some((2, LETTER_ACKNOWLEDGED)),
        Some((3, Entry::Run { node: 0, count: 16 })),
    ],
    cut: Some((1, 2)),
};

/// The sender records before it sends, so its byte is after its Marker: the hearer closes the line, and takes the byte.
const MARKER_IN_FRONT: Story<'static> = Story {
    text: TWO,
    tasks: &[&[Task::Once(0)], &[]],
    steps: [
        Some((Step::Begin, 0, 0, Some(8), None)),
        Some((Step::Whole(0, 16), 0, 1, Some(0), Some(3))),
        Some((Step::Whole(1, 16), 1, 2, Some(3), Some(4))),
        Some((Step::Whole(0, 16), 0, 2, Some(3), None)),
        Some((Step::Host, 0, 2, None, None)),
        None,
    ],
    spare: 4,
    entries: [
        Some((0, Entry::Run { node: 0, count: 5 })),
        Some((
            1,
            Entry::Turn {
                node: 1,
                takes: [JustData(0x58), Nothing, Nothing, Nothing],
                count: 0,
            },
        )),
        None,
        None,
    ],
    cut: Some((0, 0)),
};

/// What a turn sends on a link that is wired to another of that node isn't taken in it.
const WIRED_TO_ITSELF: Story<'static> = Story {
    text: SELF,
    tasks: &[&[Task::Once(2), Task::Relay(1, 0)]],
    steps: [
        Some((Step::Whole(0, 16), 0, 1, None, None)),
        Some((Step::Whole(0, 0), 1, 2, None, None)),
        Some((Step::Whole(0, 0), 1, 3, None, None)),
        Some((Step::Whole(0, 0), 0, 3, None, None)),
        None,
        None,
    ],
    spare: 4,
    entries: [
        Some((0, Entry::Run { node: 0, count: 11 })),
        Some((
            1,
            Entry::Turn {
                node: 0,
                takes: [Nothing, JustData(0x58), Nothing, Nothing],
                count: 0,
            },
        )),
        Some((
            2,
            Entry::Turn {
                node: 0,
                takes: [Nothing, Nothing, JustAck, Nothing],
                count: 0,
            },
        )),
        None,
    ],
    cut: None,
};

/// The other node's byte comes after its acknowledge, and one turn takes both, in the order in which they are.
const TWO_OF_A_LINK: Story<'static> = Story {
    text: TWO,
    tasks: &[&[Task::Once(0)], &[Task::Relay(0, 1), Task::Once(0)]],
    steps: [
        Some((Step::Whole(0, 16), 0, 1, None, None)),
        Some((Step::Whole(1, 16), 1, 2, None, None)),
        Some((Step::Whole(0, 16), 2, 3, None, None)),
        None,
        None,
        None,
    ],
    spare: 4,
    entries: [
        Some((0, Entry::Run { node: 0, count: 5 })),
        Some((
            1,
            Entry::Turn {
                node: 1,
                takes: [JustData(0x58), Nothing, Nothing, Nothing],
                count: 15,
            },
        )),
        Some((
            2,
            Entry::Turn {
                node: 0,
                takes: [AckThenData(0x58), Nothing, Nothing, Nothing],
                count: 2,
            },
        )),
        None,
    ],
    cut: None,
};

/// Bytes come for two processes. The one at link 1 has waited longer; the one at link 0 is woken first, and runs first: of five steps, its byte
/// gets to the port.
const LOWER_LINK_FIRST: Story<'static> = Story {
    text: STRAIGHT,
    tasks: &[
        &[Task::Once(0), Task::Once(1)],
        &[Task::Relay(1, 2), Task::Relay(0, 3)],
    ],
    steps: [
        Some((Step::Whole(1, 16), 0, 1, None, None)),
        Some((Step::Whole(0, 16), 0, 2, None, None)),
        Some((Step::Whole(1, 5), 2, 3, None, None)),
        Some((Step::Host, 1, 4, None, None)),
        None,
        None,
    ],
    spare: 4,
    entries: [
        Some((0, Entry::Run { node: 1, count: 12 })),
        Some((1, Entry::Run { node: 0, count: 10 })),
        Some((
            2,
            Entry::Turn {
                node: 1,
                takes: [JustData(0x58), JustData(0x58), Nothing, Nothing],
                count: 5,
            },
        )),
        Some((
            3,
            Entry::Take {
                line: 7,
                token: Data(0x58),
            },
        )),
    ],
    cut: None,
};

/// Entry by entry: link 0 first, whose line is that of the other node's link 1.
const LINK_BY_LINK: Story<'static> = Story {
    text: CROSSED,
    tasks: &[&[Task::Once(0), Task::Once(1)], &[]],
    steps: [
        Some((Step::Node(0, 16), 0, 1, None, None)),
        Some((Step::Node(1, 16), 2, 3, None, None)),
        None,
        None,
        None,
        None,
    ],
    spare: 4,
    entries: [
        Some((0, Entry::Run { node: 0, count: 10 })),
        Some((
            1,
            Entry::Take {
                line: 1,
                token: Data(0x58),
            },
        )),
        Some((
            2,
            Entry::Take {
                line: 0,
                token: Data(0x58),
            },
        )),
        None,
    ],
    cut: None,
};

/// A byte for a node that has recorded stays on its line, since no frame is free for it.
const NO_FRAME: Story<'static> = Story {
    text: TWO,
    tasks: &[&[Task::Once(0)], &[Task::Relay(0, 1)]],
    steps: [
        Some((Step::Whole(1, 16), 0, 1, None, None)),
        Some((Step::Whole(0, 16), 0, 2, None, None)),
        Some((Step::Begin, 0, 2, Some(8), None)),
        Some((Step::Whole(1, 16), 0, 2, Some(4), Some(8))),
        Some((Step::Whole(0, 16), 0, 2, Some(3), None)),
        Some((Step::Whole(1, 16), 0, 2, Some(3), None)),
    ],
    spare: 0,
    entries: [
        Some((0, Entry::Run { node: 1, count: 6 })),
        Some((1, Entry::Run { node: 0, count: 5 })),
        None,
        None,
    ],
    cut: None,
};

/// So it is if each take and each run is an entry of its own.
const NO_FRAME_APART: Story<'static> = Story {
    steps: [
        Some((Step::Node(1, 16), 0, 1, None, None)),
        Some((Step::Node(0, 16), 0, 2, None, None)),
        Some((Step::Begin, 0, 2, Some(8), None)),
        Some((Step::Node(1, 16), 0, 2, Some(4), Some(8))),
        Some((Step::Node(0, 16), 0, 2, Some(3), None)),
        Some((Step::Node(1, 16), 0, 2, Some(3), None)),
    ],
    ..NO_FRAME
};

#[test]
fn turns_go_as_they_were_told(rt: HostRuntime) -> Result<(), Fail> {
    for story in [
        FOUR_TURNS,
        ONE_ENTRY,
        MARKER_BEHIND,
        MARKER_IN_FRONT,
        WIRED_TO_ITSELF,
        TWO_OF_A_LINK,
        LOWER_LINK_FIRST,
        LINK_BY_LINK,
        NO_FRAME,
        NO_FRAME_APART,
    ] {
        assert!(rt; plays(rt.alloc(), &story)?);
    }
    Ok(())
}

/// A letter is sent, taken and acknowledged.
const HANDED: Steps = [
    Some((Step::Whole(1, 16), 0, 1, None, None)),
    Some((Step::Whole(0, 16), 1, 2, None, None)),
    Some((Step::Whole(1, 16), 1, 3, None, None)),
    None,
    None,
    None,
];

/// Turns of a node until the journal is full for one. Answers whether it was within `most`.
fn fill(net: &mut Net, number: u8, most: u16) -> bool {
    for _turn in 0..most {
        match net.does(number, Deed::Whole(16)) {
            Some(Ok(_)) => {}
            Some(Err(refusal)) => return refusal == Refusal::JournalFull,
            None => return false,
        }
    }
    false
}

/// Whether a turn of the first node is refused since the journal is full.
fn is_refused(net: &mut Net) -> bool {
    net.does(0, Deed::Whole(16)) == Some(Err(Refusal::JournalFull))
}

/// Whether the last entry is that of the byte that was before the node.
fn has_taken(net: &Net) -> bool {
    let wanted = Entry::Turn {
        node: 0,
        takes: [Nothing, Nothing, Nothing, JustData(b'x')],
        count: 0,
    };
    match net.book().entries().last() {
        Some(last) => last.entry == wanted,
        None => false,
    }
}

/// A node goes round until the journal is full, and a byte is before the other, which takes it once it has recorded. Whether there are
/// many entries before its turn, none more after it, and one more after a turn in which it has recorded.
fn is_full(alloc: Global, net: &mut Net) -> bool {
    let sent = first_other(alloc, net, &HANDED).is_none();
    if !sent || !matches!(net.hand_in(0, b"x"), Some(Ok(_))) || !fill(net, 1, 4000) {
        return false;
    }
    let before = net.book().next();
    let is_asked = is_refused(net) && net.book().next() == before && net.begin(alloc).is_ok();
    let behind = before.checked_add(1);
    let takes = is_asked && is_refused(net) && Some(net.book().next()) == behind;
    before > 1000 && takes && has_taken(net)
}

/// In it one node hears on link 0, and one sends letters there.
#[test]
fn a_full_journal_has_room_for_what_a_snapshot_needs(rt: HostRuntime) -> Result<(), Fail> {
    let tasks: [&[Task]; 2] = [&[Task::Relay(0, 1)], &[Task::Letters]];
    let made = tasks_device(rt.alloc(), TWO, &tasks);
    let (mut net, _flat) = both_of(rt.alloc(), made, 4)?;
    let told = is_full(rt.alloc(), &mut net);
    assert!(rt; told);
    Ok(())
}
