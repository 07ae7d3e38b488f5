//! What the flusher leaves on a device in memory.

use crate::flushing::flush;
use std::alloc::Global;
use std::sync::Wait;
use std::test::Fail;
use tp_book::Book;
use tp_disk::MemDisk;
use tp_flush::Flusher;
use tp_recover::{Opened, open};
use tp_shared::{Naming, Shared};

/// Whether what was opened is the book's journal: the next number, and each entry under its number.
pub(crate) fn is_journal(book: &Book, opened: &Opened) -> bool {
    let (entries, kept) = (book.entries(), opened.kept());
    opened.next() == book.next() && kept == entries
}

/// What a device opens to.
pub(crate) fn opened(alloc: Global, disk: MemDisk) -> Result<Opened, Fail> {
    let mut disk = disk;
    Ok(open(alloc, &mut disk)?)
}

/// Whether what was opened is the journal of the book under its lock.
fn is_journalled<J: Naming, R: Wait>(rt: &R, shared: &Shared<J>, opened: &Opened) -> bool {
    let held = shared.book().lock(rt);
    is_journal(held.book(), opened)
}

/// Whether one thing holds and the other, which comes from a call that may fail.
pub(crate) fn both(is_so: bool, other: Result<bool, Fail>) -> Result<bool, Fail> {
    Ok(other? && is_so)
}

/// Whether a last turn of the flusher leaves a device that opens to the book's journal.
pub(crate) fn is_left<J: Naming, R: Wait>(
    rt: &R,
    alloc: Global,
    shared: &Shared<J>,
    flusher: Flusher<J, MemDisk>,
) -> Result<bool, Fail> {
    let mut flusher = flusher;
    let is_done = flush(rt, alloc, shared, &mut flusher).is_ok();
    let opened = opened(alloc, flusher.into_disk())?;
    Ok(is_journalled(rt, shared, &opened) && is_done)
}
