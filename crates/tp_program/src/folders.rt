//! Folders of files that are made or named.

use std::fs::{Files, OpenFile};
use std::io;
use std::os::unix::fs::FileExt;
use tp_stream_files::{Outside, sync_folder_of};

/// Syncs the folder of a path, so that a name made in it lasts.
pub(crate) fn sync_folder<R: Files<File = F>, F: FileExt + OpenFile + Drop>(
    rt: &R,
    path: &str,
) -> io::Result<()> {
    sync_folder_of(&mut Outside::new(rt), path)
}
