//! Whether a device's file that was refused opens now.

use std::alloc::AllocError;
use std::fs::{Files, OpenFile};
use std::os::unix::fs::FileExt;
use tp_views::push_opening;

/// Opens a device's file again. If that fails, it says why. Answers whether it opens.
pub(crate) fn opens<R: Files<File = F> + AllocGlobal, F: FileExt + OpenFile + Drop>(
    rt: &R,
    text: &mut String,
    device: &str,
) -> Result<bool, AllocError> {
    match push_opening(rt, text, device) {
        Ok(opened) => Ok(opened.is_some()),
        Err(error) => Err(error),
    }
}

/// Opens a device's file again. If that fails, it says why.
pub(crate) fn push_unopened<R: Files<File = F> + AllocGlobal, F: FileExt + OpenFile + Drop>(
    rt: &R,
    text: &mut String,
    device: &str,
) -> Result<(), AllocError> {
    match opens(rt, text, device) {
        Ok(_) => Ok(()),
        Err(error) => Err(error),
    }
}
