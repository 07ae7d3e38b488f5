//! How turns are made.

ghost use Rattle.std.specs.Prelude.{◌≡◌, ◌≤◌, true, false, Ok, OnErr};
ghost use Rattle.tp_stream.specs.Lower.{MAX_STEPS, after_begin, begin_refusal, IsAnswer, is_due};
ghost use Rattle.tp_stream.specs.Rooms.{HavePlace, every_of};

use crate::rooms::Rooms;
use crate::rounds::begin_where_due;
use crate::task::Task;
use std::alloc::Global;
use tp_book::Refusal;
use tp_shared::{Locked, Naming};

/// How to make a device's turns: the task, and room in the journal (`rooms`). A snapshot begins after `every` entries, as the task asks. A turn and its
/// confirms need room for `need` entries; the confirms alone need `confirms`. There are `workers` workers.
#[derive(Clone, Copy)]
pub(crate) struct Pace {
    pub(crate) task: Task,
    pub(crate) every: u64,
    pub(crate) rooms: Rooms,
    pub(crate) need: u32,
    pub(crate) confirms: u32,
    pub(crate) workers: u8,
    pub ghost few: { task.quantum ≤ MAX_STEPS },
    pub ghost asked: { every ≡ every_of rooms.journal task.every },
}

impl Pace {
    /// Begins a snapshot, under the book's lock, as `begin_where_due` does: after as many entries as the task asks for.
    pub(crate) fn begin<J: Naming>(
        self,
        held: &mut Locked<J>,
        alloc: Global,
    ) -> Result<bool, Refusal>
        ensures due { result ≡ Ok true → is_due (every_of self.rooms.journal self.task.every) held.old.book ≡ true }
        ensures place { result ≡ Ok true → HavePlace held.old.book }
        ensures begun { result ≡ Ok true → held.new ≡ record held.old { book = after_begin held.old.book } }
        ensures early { result ≡ Ok false → HavePlace held.old.book → is_due (every_of self.rooms.journal self.task.every) held.old.book ≡ false }
        ensures same { result ≡ Ok false → held.new ≡ held.old }
        ensures refused { OnErr result (IsAnswer (begin_refusal held.old.book) result × (held.new ≡ held.old)) }
    {
        begin_where_due(held, alloc, self.every)
    }
}
