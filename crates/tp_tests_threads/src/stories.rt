//! What is done on the device of one node, act by act, with what has to come of it. Every number was worked out by hand.

use crate::acts::Act::{
    Answers, Begin, Confirms, Fails, Flush, Next, NotShown, OnePort, Refused, Rounds, Runs, Shows,
    Stores, Switch, Turn, Whole,
};
use crate::acts::{Act, Story};
use crate::small::ONE;
use tp_model::Token;
use tp_node::Why;
use tp_work::{OfferFault, ShownFault, TurnFault};

/// Without a spare frame: the node records, takes the acknowledge and makes a whole turn's steps, and in its next turn closes its line and
/// makes as many, since nothing is written.
pub(crate) const NOTHING_WRITTEN: Story<'static> = Story {
    network: ONE,
    spare: 0,
    quantum: 16,
    offered: b"",
    is_plain: false,
    acts: &[
        Answers(0, b"", Ok(0)),
        Turn(0, 0, Some((3, Why::Idle))),
        Next(1),
        Turn(1, 1, None),
        Next(2),
        Begin,
        Next(2),
        Turn(0, 1, Some((16, Why::Full))),
        Next(3),
        Turn(1, 0, None),
        Next(3),
        Turn(0, 0, Some((16, Why::Full))),
        Whole(1, 1, Some(Token::Ack), 2),
        Next(4),
        Flush(true),
        Next(4),
    ],
};

/// Without a spare frame a frozen node ends before the step that writes its workspace, and goes on once its pages are copied.
pub(crate) const NO_FRAME: Story<'static> = Story {
    acts: &[
        Begin,
        Next(0),
        Turn(0, 0, Some((2, Why::NoFrame))),
        Next(1),
        Turn(1, 0, None),
        Turn(0, 0, Some((0, Why::NoFrame))),
        Turn(1, 0, None),
        Whole(0, 0, None, 1),
        Next(1),
        Flush(true),
        Next(1),
        Turn(0, 0, Some((1, Why::Idle))),
        Next(2),
        Turn(1, 1, None),
        Next(3),
        Turn(0, 1, Some((16, Why::Full))),
        Next(4),
        Flush(false),
        Next(4),
    ],
    ..NOTHING_WRITTEN
};

/// One spare frame is enough for the page that it writes.
pub(crate) const ONE_FRAME: Story<'static> = Story {
    spare: 1,
    acts: &[
        Begin,
        Next(0),
        Turn(0, 0, Some((3, Why::Idle))),
        Next(1),
        Turn(1, 1, None),
        Whole(0, 0, None, 2),
        Next(2),
        Turn(0, 1, Some((16, Why::Full))),
        Next(3),
        Flush(true),
        Next(3),
    ],
    ..NOTHING_WRITTEN
};

/// A journal that is full stays so without a snapshot. One that runs takes what it needs from what is kept for it: the node takes a byte in
/// a turn without a step, and in its next turn closes its line. Its end makes room. As many bytes are offered as the journal has room for
/// entries.
pub(crate) const FULL: Story<'static> = Story {
    spare: 4,
    offered: &[7; 105],
    acts: &[
        Answers(105, b"x", Err(OfferFault::JournalFull)),
        Refused(TurnFault::JournalFull),
        Turn(1, 0, None),
        Flush(false),
        Begin,
        Next(0),
        Refused(TurnFault::JournalFull),
        Next(1),
        Turn(1, 0, None),
        Refused(TurnFault::JournalFull),
        Turn(1, 0, None),
        Whole(0, 0, Some(Token::Data(7)), 1),
        Answers(105, b"x", Err(OfferFault::JournalFull)),
        Next(1),
        Flush(true),
        Next(1),
        Turn(0, 0, Some((3, Why::Idle))),
        Next(2),
        Flush(false),
        Next(2),
    ],
    ..NOTHING_WRITTEN
};

/// A byte comes in, the letter goes out and is confirmed, and a snapshot comes to its end. This is after a number of bytes, so that each of these
/// calls runs out of memory for its entry in one of the stories.
pub(crate) const CALLS: Story<'static> = Story {
    spare: 4,
    acts: &[
        Turn(0, 1, Some((3, Why::Idle))),
        Next(1),
        Turn(1, 1, None),
        Next(2),
        Flush(false),
        Next(2),
        Shows(0, Ok(b"A")),
        Confirms(1, 3, false),
        Next(3),
        Turn(0, 1, Some((16, Why::Full))),
        Next(4),
        Begin,
        Turn(1, 0, None),
        Next(4),
        Turn(0, 0, Some((16, Why::Full))),
        Next(5),
        Turn(1, 0, None),
        Whole(2, 2, None, 1),
        Next(5),
        Flush(true),
        Next(5),
    ],
    ..NOTHING_WRITTEN
};

/// What a worker and a host get, call by call: turns in the order of the ready queue; outputs that are shown, and confirmed, once the mark is above
/// the letter's entry; offers, each with its receipt's number or its fault. What was confirmed is stored once the mark is the receipt's number, and
/// not before. Once the store is broken, it has what is refused then, and that each process stays in the ready queue.
pub(crate) const HOSTS: Story<'static> = Story {
    spare: 4,
    acts: &[
        OnePort,
        Turn(0, 0, Some((3, Why::Idle))),
        Turn(1, 1, None),
        Shows(0, Ok(b"")),
        Shows(1, Err(ShownFault::TooNew)),
        NotShown(1),
        Flush(false),
        Next(2),
        Shows(0, Ok(b"A")),
        Turn(0, 1, Some((16, Why::Full))),
        Turn(1, 0, None),
        Answers(1, b"b", Err(OfferFault::Gap(0))),
        Answers(0, b"", Ok(3)),
        Answers(0, b"ab", Ok(5)),
        Answers(0, b"ab", Err(OfferFault::Already(2))),
        Answers(3, b"c", Err(OfferFault::Gap(2))),
        Answers(2, b"", Ok(5)),
        Answers(2, &[7; 4095], Err(OfferFault::PortFull(4094))),
        Flush(false),
        Next(5),
        Confirms(1, 6, false),
        Stores(1),
        Confirms(1, 6, true),
        Next(6),
        Shows(0, Err(ShownFault::TooOld)),
        Shows(1, Ok(b"")),
        Turn(0, 1, Some((16, Why::Full))),
        Fails,
        Answers(0, b"ab", Err(OfferFault::Already(2))),
        Answers(3, b"c", Err(OfferFault::Gap(2))),
        Answers(2, b"c", Err(OfferFault::StoreBroken)),
        Answers(2, &[7; 4095], Err(OfferFault::StoreBroken)),
        Answers(2, b"", Ok(7)),
        Confirms(1, 7, false),
        Turn(1, 0, None),
        Refused(TurnFault::StoreBroken),
        Turn(1, 0, None),
        Refused(TurnFault::StoreBroken),
        Turn(1, 0, None),
        Refused(TurnFault::StoreBroken),
    ],
    ..NOTHING_WRITTEN
};

/// A host, a worker and the flusher, with two checkpoints.
pub(crate) const SCRIPT: Story<'static> = Story {
    spare: 4,
    quantum: 9,
    acts: &[
        Act::Offer(0, b"ab"),
        Act::Turns(4),
        Flush(false),
        Switch,
        Act::Offer(2, b"c"),
        Flush(false),
        Switch,
    ],
    ..NOTHING_WRITTEN
};

/// A checkpoint, and what is done with a device once it was opened again.
pub(crate) const CHECKPOINT: Story<'static> = Story {
    acts: &[Switch],
    ..SCRIPT
};

pub(crate) const GOES_ON: Story<'static> = Story {
    acts: &[Act::More(b'z'), Act::Turns(2), Flush(false)],
    ..SCRIPT
};

/// A round, and then four parts of four rounds each. Before each of the first parts, as many as the number of the row says, a snapshot begins, and no
/// other one while it runs: the flusher then switches once in that part, and never in the others.
pub(crate) const SNAPSHOTS: [&[Act]; 4] = [
    &[
        Rounds(1, 0),
        Rounds(4, 0),
        Rounds(4, 0),
        Rounds(4, 0),
        Rounds(4, 0),
    ],
    &[
        Rounds(1, 0),
        Begin,
        Runs,
        Rounds(4, 1),
        Rounds(4, 0),
        Rounds(4, 0),
        Rounds(4, 0),
    ],
    &[
        Rounds(1, 0),
        Begin,
        Runs,
        Rounds(4, 1),
        Begin,
        Runs,
        Rounds(4, 1),
        Rounds(4, 0),
        Rounds(4, 0),
    ],
    &[
        Rounds(1, 0),
        Begin,
        Runs,
        Rounds(4, 1),
        Begin,
        Runs,
        Rounds(4, 1),
        Begin,
        Runs,
        Rounds(4, 1),
        Rounds(4, 0),
    ],
];
