//! What a turn of the flusher did.

use crate::imaged::Images;
use crate::unswitched::Unswitched;
use tp_book::Copied;
use tp_shared::{Naming, Sights};

/// What a turn did:
/// - the mark's number, to which the turn raised it;
/// - up to which number the book's entries were copied, and that book;
/// - what became of the images of the snapshot that ran, and the book in which it was found;
/// - whether the store switched to its other area and, if it didn't while a snapshot ran, why not.
#[derive(Drop)]
pub struct Flushed<J: Naming> {
    pub mark: u64,
    pub copied: Copied,
    pub seen: Sights<J>,
    pub images: Images,
    pub looked: Sights<J>,
    pub switched: bool,
    pub unswitched: Option<Unswitched>,
}
