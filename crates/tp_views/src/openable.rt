//! What may be opened as a device, an image or a topology.

use std::fs;
use std::fs::Files;

/// Whether what is at a path can be opened without waiting: it is a regular file, as far as the system says. Opening a FIFO may wait, and some file
/// systems open a folder. If the system says nothing, for example because nothing is at the path, the answer is yes: opening then says why.
pub fn is_openable<R: Files>(rt: &R, path: &str) -> bool {
    match fs::metadata(rt, path) {
        Ok(found) => found.is_file(),
        Err(_) => true,
    }
}
