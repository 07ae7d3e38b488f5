//! A node's turn that is open while the areas are switched and the book is trimmed.

use crate::acts::turn;
use crate::plain::are_entries;
use crate::scenes::{Scene, plays};
use crate::small::{Network, SIXTEEN, WITHOUT_TURNS};
use crate::turns::QUANTUM;
use std::sync::Wait;
use std::test::Fail;
use tp_model::{Entry, Form, Received, Token};
use tp_shared::{Naming, Shared};

/// The line from the port to the first node.
const LINE: u16 = 64;

/// Whether the book has form Turns, and these are its last entries.
pub(crate) fn ends_with<J: Naming, R: Wait>(rt: &R, shared: &Shared<J>, wanted: &[Entry]) -> bool {
    let held = shared.book().lock(rt);
    let entries = held.book().entries();
    let last = entries.len().saturating_sub(wanted.len());
    held.book().form() == Form::Turns && are_entries(entries.get(last..).unwrap_or(&[]), wanted)
}

/// The open turn journals the letter's acknowledge and the run in one entry, or apart.
#[test]
fn a_turn_that_is_open_at_a_trim_is_committed_as_it_was_opened(
    rt: HostRuntime,
) -> Result<(), Fail> {
    let whole = [turn(0, Received::JustAck, QUANTUM)];
    let apart = [
        Entry::Take {
            line: LINE,
            token: Token::Ack,
        },
        Entry::Run {
            node: 0,
            count: QUANTUM,
        },
    ];
    let rows: [(&Network, &[Entry]); 2] = [(&SIXTEEN, &whole), (&WITHOUT_TURNS, &apart)];
    for (network, wanted) in rows {
        assert!(rt; plays(&rt, rt.alloc(), network, 1, Scene::Trim(wanted))?);
    }
    Ok(())
}
