//! The folders of files that are made or named.

ghost use Rattle.std.specs.Prelude.{◌≡◌, is_ok};
ghost use Rattle.tp_stream_files.specs.Folders.{AsksFolder, IsFolder, before_slash};

use crate::system::EndFiles;
use std::io;

/// Gives what is before a path's last slash; the root if nothing is.
fn before_slash(front: &str) -> &str
    ensures { result.now ≡ before_slash front.now }
{
    if front.is_empty() { "/" } else { front }
}

/// Gives the folder of a path.
fn folder_of(path: &str) -> &str
    ensures { IsFolder path.now result.now }
{
    match path.rsplit_once('/') {
        Some((front, _)) => before_slash(front),
        None => ".",
    }
}

/// Syncs the folder of a path, so that a name made in it lasts. The folder is what is before the path's last slash (the root if nothing is). Without
/// a slash it is the process's folder.
pub fn sync_folder_of<S: EndFiles>(files: &mut S, path: &str) -> io::Result<()>
    ensures { AsksFolder path.now (is_ok result) (S.calls files.old) (S.calls files.new) }
{
    files.sync_folder(folder_of(path))
}
