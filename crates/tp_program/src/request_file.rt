//! The file beside a device by which its stream is asked to stop.

ghost use Rattle.std.specs.Prelude.{◌≡◌, IfOk, string_bytes};
ghost use Rattle.tp_program.specs.Stops.{request_path};

use std::alloc::{AllocError, Global};
use std::fs::{Files, OpenOptions};
use std::{fs, io};

/// Whether there is a request at a path. If that can't be checked, the answer is no.
fn is_request<R: Files>(rt: &R, path: &str) -> bool {
    match fs::symlink_metadata(rt, path) {
        Ok(found) => found.is_file() && found.len() == 0,
        Err(_) => false,
    }
}

/// Makes a request at a path, if none is there.
pub(crate) fn make_request<R: Files>(rt: &R, path: &str) -> io::Result<()> {
    let mut how = OpenOptions::new();
    let how = how.write(true).create_new(true);
    match how.open(rt, path) {
        Ok(_made) => Ok(()),
        Err(error) if error.kind() == io::ErrorKind::AlreadyExists && is_request(rt, path) => Ok(
            (),
        ),
        Err(error) => Err(error),
    }
}

/// The file DEVICE.stop. A regular file without bytes is a request to stop, whoever made it. Anything else at that path is somebody's own, is no
/// request, and stays.
#[derive(Drop)]
pub(crate) struct RequestFile {
    path: String,
}

impl RequestFile {
    /// Gives the request file of a device.
    pub(crate) fn of(alloc: Global, device: &str) -> Result<RequestFile, AllocError>
        ensures { IfOk result (λ file. string_bytes file.path ≡ request_path device.now) }
    {
        Ok(RequestFile {
            path: format!(in alloc; "{device}.stop")?,
        })
    }

    /// Gives its path.
    pub(crate) fn path(&self) -> &str
        ensures { result.now ≡ string_bytes self.now.path }
    {
        self.path.as_str()
    }

    /// Whether there is a request. If that can't be checked, the answer is no.
    pub(crate) fn is_there<R: Files>(&self, rt: &R) -> bool {
        is_request(rt, self.path.as_str())
    }

    /// Removes a request, if there is one. Only the process that holds the device does that. Answers whether there is none afterwards.
    pub(crate) fn clear<R: Files>(&self, rt: &R) -> bool {
        !self.is_there(rt) || fs::remove_file(rt, self.path.as_str()).is_ok() || !self.is_there(rt)
    }
}
