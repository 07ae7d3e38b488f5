//! What is done with a device, step by step, and what opening says before each of the last steps and after them.

use crate::checkpoints::{Calls, Cut, PUTS, Stage, Step, Story, WRITES};
use crate::devices::{LETTER, MORE};
use tp_model::Form::{Plain, Turns};
use tp_model::Token;

/// Two groups are appended.
pub(crate) const TWO_GROUPS: &Story = &Story {
    first: None,
    before: &[],
    steps: &[Step::Group(LETTER), Step::Group(MORE)],
    calls: Calls {
        each: 4,
        all: WRITES,
        skipped: 0,
        behind: 0,
    },
    stages: &[
        Stage {
            made: b"",
            look: (false, 1, 0, 0, 0, Turns),
            outputs: b"",
        },
        Stage {
            made: b"rako",
            look: (false, 1, 0, 4, 4, Turns),
            outputs: b"A",
        },
        Stage {
            made: b"rakoxg",
            look: (false, 1, 0, 6, 6, Turns),
            outputs: b"A",
        },
    ],
    bytes: &[],
};

/// The tail has the entry that was made after the node recorded, which was in the open area.
pub(crate) const AFTER_A_GROUP: &Story = &Story {
    first: None,
    before: &[Step::Group(LETTER), Step::Group(b"o")],
    steps: &[Step::Switch(Cut {
        entries: LETTER,
        token: None,
        tail: &[(b'o', 4)],
    })],
    calls: Calls {
        each: 14,
        all: PUTS,
        skipped: 2,
        behind: 12_553,
    },
    stages: &[
        Stage {
            made: b"rakoo",
            look: (false, 1, 0, 5, 5, Turns),
            outputs: b"A",
        },
        Stage {
            made: b"rakoo",
            look: (true, 2, 4, 1, 5, Turns),
            outputs: b"A",
        },
    ],
    bytes: &[(512, 0xA5), (16_896, 0xA5)],
};

/// A snapshot begins once the port was handed a first byte. The node goes on twice before it records, when the next number is 9; the cut
/// is whole at 12, and the tail reaches 12.
pub(crate) const BEYOND_THE_GROUPS: &Story = &Story {
    first: None,
    before: &[Step::Group(LETTER), Step::Group(b"hhghg")],
    steps: &[Step::Switch(Cut {
        entries: b"rakohgg",
        token: Some((4, Token::Data(7))),
        tail: &[(b'h', 5), (b'h', 7), (b'd', 9), (b'g', 10), (b'h', 11)],
    })],
    calls: Calls {
        each: 14,
        all: PUTS,
        skipped: 2,
        behind: 12_617,
    },
    stages: &[
        Stage {
            made: b"rakohhghg",
            look: (false, 1, 0, 9, 9, Turns),
            outputs: b"A",
        },
        Stage {
            made: b"rakohhghgdgh",
            look: (true, 2, 7, 5, 12, Turns),
            outputs: b"A",
        },
    ],
    bytes: &[(512, 0xA5), (16_896, 0xA5)],
};

/// Forty times the node goes on.
const FORTY: &[u8] = b"gggggggggggggggggggggggggggggggggggggggg";

/// The node's first turns, and these.
const CUT: &[u8] = b"rakogggggggggggggggggggggggggggggggggggggggg";

/// And once more.
const MADE: &[u8] = b"rakoggggggggggggggggggggggggggggggggggggggggg";

/// The second area has forty groups of its own. Then the first one is opened again, and then the second one once more: the tail's only group is
/// written over the first of the forty, and the others are after its closed gate.
pub(crate) const OVER_OLD_GROUPS: &Story = &Story {
    first: None,
    before: &[
        Step::Group(LETTER),
        Step::Switch(Cut {
            entries: LETTER,
            token: None,
            tail: &[],
        }),
        Step::Each(FORTY),
        Step::Switch(Cut {
            entries: CUT,
            token: None,
            tail: &[],
        }),
        Step::Group(b"g"),
    ],
    steps: &[Step::Switch(Cut {
        entries: CUT,
        token: None,
        tail: &[(b'g', 44)],
    })],
    calls: Calls {
        each: 16,
        all: PUTS,
        skipped: 0,
        behind: 12_553,
    },
    stages: &[
        Stage {
            made: MADE,
            look: (false, 3, 44, 1, 45, Turns),
            outputs: b"A",
        },
        Stage {
            made: MADE,
            look: (true, 4, 44, 1, 45, Turns),
            outputs: b"A",
        },
    ],
    bytes: &[(29_417, 0xA5), (29_449, 0x00), (29_481, 0xA5)],
};

/// A device that was kept from before areas had forms, after the node's first turns. A group more is appended, and is outside
/// the cut. What the checkpoint leaves has turns.
pub(crate) const BEHIND_KEPT: &Story = &Story {
    first: Some(1),
    before: &[Step::Group(b"o")],
    steps: &[Step::Switch(Cut {
        entries: b"",
        token: None,
        tail: &[(b'o', 4)],
    })],
    calls: Calls {
        each: 14,
        all: PUTS,
        skipped: 2,
        behind: 12_553,
    },
    stages: &[
        Stage {
            made: b"o",
            look: (false, 1, 0, 5, 5, Plain),
            outputs: b"A",
        },
        Stage {
            made: b"o",
            look: (true, 2, 4, 1, 5, Turns),
            outputs: b"A",
        },
    ],
    bytes: &[(512, 0xA5), (531, 0), (16_896, 0xA5), (16_915, 2)],
};

/// A device that was kept in the middle of its first checkpoint, and a group more: the checkpoint is made anew over the second area's bytes.
pub(crate) const BEHIND_A_STOP: &Story = &Story {
    first: Some(3),
    before: &[Step::Group(b"o")],
    steps: &[Step::Switch(Cut {
        entries: b"",
        token: None,
        tail: &[(b'o', 5)],
    })],
    calls: Calls {
        each: 14,
        all: PUTS,
        skipped: 2,
        behind: 12_553,
    },
    stages: &[
        Stage {
            made: b"o",
            look: (false, 1, 0, 6, 6, Plain),
            outputs: b"",
        },
        Stage {
            made: b"o",
            look: (true, 2, 5, 1, 6, Turns),
            outputs: b"",
        },
    ],
    bytes: &[(512, 0xA5), (531, 0), (16_896, 0xA5), (16_915, 2)],
};

/// What the node takes and the steps that it then makes are one entry, in the first area and outside the cut: when the next number is 8 the node
/// records, and then it takes the letter that is on its line in the cut.
pub(crate) const WITH_TURNS: &Story = &Story {
    first: None,
    before: &[Step::Group(b"raT"), Step::Group(b"hhghg")],
    steps: &[Step::Switch(Cut {
        entries: b"raThgg",
        token: Some((4, Token::Data(7))),
        tail: &[(b'h', 4), (b'h', 6), (b'D', 8), (b'h', 9)],
    })],
    calls: Calls {
        each: 14,
        all: PUTS,
        skipped: 2,
        behind: 12_601,
    },
    stages: &[
        Stage {
            made: b"raThhghg",
            look: (false, 1, 0, 8, 8, Turns),
            outputs: b"A",
        },
        Stage {
            made: b"raThhghgDh",
            look: (true, 2, 6, 4, 10, Turns),
            outputs: b"A",
        },
    ],
    bytes: &[(531, 2), (13_081, 5), (16_915, 2), (29_465, 5)],
};
