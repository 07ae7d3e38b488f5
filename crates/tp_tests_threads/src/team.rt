//! Workers that make turns together, and what they journalled.

ghost use Rattle.std.specs.Prelude.{◌≡◌, [], ◌++◌, IsTrue, Some, All, ℕ};
ghost use Rattle.tp_ready.specs.Sound.{item_of, shown};

use std::alloc::AllocError;
use std::sync::Wait;
use std::sync::atomic::{AtomicU32, Ordering};
use std::thread::{Threads, join, map_vec, yield_now};
use tp_shared::{Gate, HostKey, Locked, Naming, Seat as Slips, Sights};
use tp_work::{Net, Seat, Session};

/// What a worker's turns journalled: their slips, and whether a turn was refused.
#[derive(Drop)]
pub struct Work<J: Naming> {
    slips: Slips<J>,
    is_refused: bool,
}

impl<J: Naming> Work<J> {
    /// Both together.
    pub fn and(self, other: Work<J>) -> Work<J>
        ensures { result.slips ≡ self.slips ++ other.slips }
    {
        let Work {
            mut slips,
            is_refused,
        } = self;
        let Work {
            slips: more,
            is_refused: is_other,
        } = other;
        slips.absorb(more);
        Work {
            slips,
            is_refused: is_refused || is_other,
        }
    }

    /// Whether a turn was refused.
    pub fn is_refused(&self) -> bool {
        self.is_refused
    }

    /// Puts the slips after those of `seat`. Whether there are as many then as entries since the opening, the first with the number
    /// `first`. Then each number has the slip of the journal's entry, once.
    pub fn are_all(self, held: &mut Locked<J>, seat: &mut Slips<J>, first: u64) -> bool
        requires { first ≡ J.first }
        ensures same { held.new ≡ held.old }
        ensures seat { seat.new ≡ seat.old ++ self.slips }
        ensures all { IsTrue result → (n : ℕ) → shown n seat.new ≡ item_of J.first held.old.all n }
    {
        let Work { slips, is_refused } = self;
        held.known();
        seat.absorb(slips);
        held.audit(seat);
        !is_refused && seat.count() == held.book().next() - first
    }
}

/// Makes at most `most` turns of the `turns` that a team draws.
pub fn make_turns<J: Naming, G: Gate, R: Wait>(
    rt: &R,
    net: &Net<J, G>,
    drawn: &AtomicU32,
    turns: u32,
    most: u32,
    seat: Seat<J>,
) -> Work<J>
    requires { (seat.hand.of ≡ Some net.now.queue) × (seat.slips ≡ []) }
{
    let mut seat = seat;
    let mut is_refused = false;
    for _ in 0..most {
        if drawn.fetch_add(1, Ordering::SeqCst) >= turns {
            break;
        }
        is_refused = net.turn(rt, &mut seat).is_err() || is_refused;
        yield_now();
    }
    Work {
        slips: seat.into_slips(),
        is_refused,
    }
}

/// What the first and all the others did.
fn together<J: Naming>(first: Work<J>, others: Vec<Work<J>>) -> Work<J> {
    let mut all = first;
    for work in others {
        all = all.and(work);
    }
    all
}

/// One worker ends after its first turn, and the others make the rest of `turns` together, each in a thread of its own.
pub fn work_as_team<J: Naming + Send + Sync, G: Gate + Send + Sync, R: Threads + Wait + Sync>(
    rt: &R,
    net: &Net<J, G>,
    turns: u32,
    first: Seat<J>,
    others: Vec<Seat<J>>,
) -> Result<Work<J>, AllocError>
    requires first { (first.hand.of ≡ Some net.now.queue) × (first.slips ≡ []) }
    requires others { All (λ seat. (seat.hand.of ≡ Some net.now.queue) × (seat.slips ≡ [])) others.items }
{
    let drawn = AtomicU32::new(0);
    let lent = &drawn;
    let (first, others) = join(
        rt,
        move || -> Work<J>
            requires { (first.hand.of ≡ Some net.now.queue) × (first.slips ≡ []) }
        { make_turns(rt, net, lent, turns, 1, first) },
        move || -> Result<Vec<Work<J>>, AllocError>
            requires { All (λ seat. (seat.hand.of ≡ Some net.now.queue) × (seat.slips ≡ [])) others.items }
        {
            map_vec(
                rt,
                others,
                &|seat| make_turns(rt, net, lent, turns, u32::MAX, seat),
            )
        },
    );
    Ok(together(first, others?))
}

/// Hands pairs of bytes to a port, as many as `count` says, one after another. `seat` gets their slips.
pub fn offer_pairs<J: Naming, R: Wait>(
    rt: &R,
    session: &Session<'_, J>,
    count: u64,
    seat: &mut Slips<J>,
    key: &mut HostKey<J>,
) {
    for place in 0..count {
        let at = place.wrapping_mul(2);
        let _receipt = session.offer(rt, at, b"ab", seat, key, &mut Sights::new());
        yield_now();
    }
}
