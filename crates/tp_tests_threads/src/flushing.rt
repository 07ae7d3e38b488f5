//! Turns of a flusher.

use std::alloc::Global;
use std::sync::Wait;
use tp_disk::Disk;
use tp_flush::{FlushFault, Flusher};
use tp_shared::{Naming, Shared};

/// A turn of the flusher. Answers the mark, and whether it switched the areas.
pub fn flush<J: Naming, D: Disk, R: Wait>(
    rt: &R,
    alloc: Global,
    shared: &Shared<J>,
    flusher: &mut Flusher<J, D>,
) -> Result<(u64, bool), FlushFault> {
    let flushed = flusher.turn(rt, alloc, shared)?;
    Ok((flushed.mark, flushed.switched))
}
