//! What a run leaves to do in the network.

ghost use Rattle.std.specs.Prelude.{◌≡◌, ◌≤◌, IfOk};
ghost use Rattle.tp_run.specs.Lower.{AreTrue, Began, next_in_book};
ghost use Rattle.tp_run.specs.Rested.{LeadsToRest};

use crate::fault::RunFault;
use std::sync::Wait;
use tp_disk::Disk;
use tp_flush::Flusher;
use tp_node::Rest;
use tp_shared::{Locked, Naming, Shared};

/// Says exactly what is left to do in the network after a run that answered `done`, under the book's lock. Takes each node's lock; no other thread
/// holds one by then. If the run failed, the answer is `Busy`.
#[inline(never)]
pub(crate) fn rest_after<J: Naming, D: Disk, R: Wait>(
    rt: &R,
    shared: &Shared<J>,
    held: &mut Locked<J>,
    flusher: &mut Flusher<J, D>,
    done: &Result<u64, RunFault>,
) -> Rest
    requires stored { IfOk done.now (λ next. (next_in_book held.old.book ≡ next) × (next ≤ flusher.old.world.mark)) }
    ensures same { (flusher.new ≡ flusher.old) × (held.new ≡ held.old) }
    ensures says { AreTrue flusher.new.reads → Began J.formatted J.before flusher.old.opened → IfOk done.now (λ next. LeadsToRest J.formatted flusher.old.world.journal next result) }
{
    let Ok(_) = done else {
        return Rest::Busy;
    };
    flusher.settle_book(held);
    shared.rest(rt, held)
}
