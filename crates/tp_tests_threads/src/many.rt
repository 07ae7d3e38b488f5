//! Many entries at once: in one turn of the flusher, around the most that 16 bits count, and after a cut.

use crate::acts::Act::{Begin, Book, Flush, Turns};
use crate::acts::Story;
use crate::desk::Done;
use crate::fresh::opened;
use crate::small::{Network, ONE, Program};
use crate::stories::NOTHING_WRITTEN;
use crate::worked::played;
use crate::worked_stories::COUNTS;
use std::alloc::Global;
use std::sync::Wait;
use std::test::Fail;

/// A node that never stops, so that each of its turns is an entry, and every other turn is its own. The journal has room for them all.
const BELOW: Story<'static> = Story {
    network: Network {
        programs: &[Program {
            code: COUNTS,
            workspace: 0x200,
        }],
        area: 4_194_304,
        ..ONE
    },
    spare: 4,
    quantum: 4,
    acts: &[Turns(131_070), Book(65_535, false), Flush(false)],
    ..NOTHING_WRITTEN
};

const AT: Story<'static> = Story {
    acts: &[Turns(131_072), Book(65_536, false), Flush(false)],
    ..BELOW
};

const ABOVE: Story<'static> = Story {
    acts: &[Turns(131_074), Book(65_537, false), Flush(false)],
    ..BELOW
};

/// The node records in the first turn after `Begin`, so all entries of the 200,000 turns are outside the cut.
const TAIL: Story<'static> = Story {
    acts: &[
        Turns(2),
        Flush(false),
        Begin,
        Turns(200_000),
        Book(100_001, true),
        Flush(true),
    ],
    ..BELOW
};

/// Whether a crash after a story opens with entries from `base` to `next`, as many as these.
fn keeps<R: Wait>(
    rt: &R,
    alloc: Global,
    story: &Story<'_>,
    base: u64,
    next: u64,
) -> Result<bool, Fail> {
    let left = played(rt, alloc, story, None)?;
    let opened = opened(alloc, &left.bytes)?;
    let kept = opened.kept().len() as u64;
    let is_done = left.done == Done::All;
    Ok(is_done && opened.base() == base && opened.next() == next && kept == next - base)
}

#[test]
fn many_entries_are_flushed_at_once(rt: HostRuntime) -> Result<(), Fail> {
    let rows = [(&BELOW, 0, 65_535), (&AT, 0, 65_536), (&ABOVE, 0, 65_537)];
    for (story, base, next) in rows {
        assert!(rt; keeps(&rt, rt.alloc(), story, base, next)?, "{next}");
    }
    Ok(())
}

#[test]
fn many_entries_stand_behind_a_cut(rt: HostRuntime) -> Result<(), Fail> {
    assert!(rt; keeps(&rt, rt.alloc(), &TAIL, 1, 100_001)?);
    Ok(())
}
