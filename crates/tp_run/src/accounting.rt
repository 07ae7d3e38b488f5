//! Who made each entry that was journalled.

ghost use Rattle.std.specs.Prelude.{◌≡◌, ◌<◌, ◌≤◌, ◌++◌, ◌-◌, ◌^◌, flat_map, length, sum_by, IfErr, IfOk};
ghost use Rattle.tp_run.specs.Lower.{AreTrue, AreAll, Began, next_in_book};
ghost use Rattle.tp_run.specs.Faults.{IsLate};
ghost use Rattle.tp_run.specs.Prints.{TellsAllPrinted};

use crate::fault::RunFault;
use tp_disk::Disk;
use tp_flush::Flusher;
use tp_shared::{Locked, Naming};
use tp_work::Seat;

/// Joins the slips of the seat `host` and of all `seats`, in their order.
fn slips_of<J: Naming>(host: tp_shared::Seat<J>, seats: Vec<Seat<J>>) -> tp_shared::Seat<J>
    ensures { result ≡ host ++ flat_map (λ seat. seat.slips) seats.items }
{
    let mut all = host;
    for seat in seats {
        all.absorb(seat.into_slips());
    }
    all
}

/// Counts the turns of all `seats`, up to the greatest number.
fn turns_of<J: Naming>(seats: &[Seat<J>]) -> u64
    ensures { result < 2 ^ 64 - 1 → sum_by (λ seat. length seat.answers) seats.now ≡ result }
{
    let mut all = 0u64;
    for seat in seats {
        all = all.saturating_add(seat.turns());
    }
    all
}

/// Tests, under the book's lock, that the seat `host` and `seats` have exactly the slips of all entries from the number `first` on, and that `seats`
/// have made `turns` turns. The next number must be `next`, and all entries must be stored. Answers `next`, or fails with `Unaccounted`. Changes
/// nothing.
pub(crate) fn account<J: Naming, D: Disk>(
    held: &mut Locked<J>,
    flusher: &mut Flusher<J, D>,
    first: u64,
    next: u64,
    turns: u32,
    seats: Vec<Seat<J>>,
    host: tp_shared::Seat<J>,
) -> Result<u64, RunFault>
    requires first { first ≡ J.first }
    ensures same { (flusher.new ≡ flusher.old) × (held.new ≡ held.old) }
    ensures next { IfOk result (λ answer. answer ≡ next) }
    ensures book { IfOk result (λ answer. (next_in_book held.old.book ≡ answer) × (answer ≤ flusher.old.world.mark)) }
    ensures turns { IfOk result (λ answer. sum_by (λ seat. length seat.answers) seats.items ≡ turns) }
    ensures all { AreTrue flusher.new.reads → Began J.formatted J.before flusher.old.opened
        → IfOk result (λ answer. AreAll J.first answer flusher.old.world.journal (host ++ flat_map (λ seat. seat.slips) seats.items)) }
    ensures late { IfErr result IsLate }
    ensures told { TellsAllPrinted result }
{
    let made = turns_of(seats.as_slice());
    let mut all = slips_of(host, seats);
    let has_all = flusher.settle_all(held, &mut all, first);
    if has_all && held.book().next() == next && made == u64::from(turns) {
        return Ok(next);
    }
    Err(RunFault::Unaccounted)
}
