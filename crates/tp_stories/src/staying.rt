//! Whether files stay as they were.

use crate::printed::print_answer;
use crate::stage::Stage;
use std::fs::Files;
use std::os::unix::fs::MetadataExt;
use std::{fs, io};

/// The bytes of a file, and when it was written and changed last.
#[derive(Drop)]
struct Seen {
    bytes: Vec<u8>,
    times: (i64, i64, i64, i64),
}

/// What a file was; nothing if it wasn't there.
#[derive(Drop)]
pub(crate) struct Kept {
    file: String,
    seen: Option<Seen>,
}

/// What there is of a file.
fn seen_of<R: Files + AllocGlobal>(rt: &R, file: &str) -> io::Result<Option<Seen>> {
    let Ok(found) = fs::metadata(rt, file) else {
        return Ok(None);
    };
    Ok(Some(Seen {
        bytes: fs::read(rt, file)?,
        times: (
            found.mtime(),
            found.mtime_nsec(),
            found.ctime(),
            found.ctime_nsec(),
        ),
    }))
}

/// Whether a file is as it was. One that wasn't there may have been made, without a byte.
fn stays(before: Option<&Seen>, after: Option<&Seen>) -> bool {
    match (before, after) {
        (Some(before), Some(after)) => {
            before.bytes.as_slice() == after.bytes.as_slice() && before.times == after.times
        }
        (None, Some(after)) => after.bytes.is_empty(),
        (None, None) => true,
        (Some(_), None) => false,
    }
}

/// Keeps what files are.
pub(crate) fn keep<R: Files + AllocGlobal>(
    rt: &R,
    stage: &mut Stage,
    files: &str,
) -> io::Result<()> {
    stage.kept.clear();
    for file in files.split_whitespace() {
        let seen = seen_of(rt, file)?;
        let file = String::from_str(rt.alloc(), file)?;
        stage.kept.push(Kept { file, seen })?;
    }
    Ok(())
}

/// Prints whether all files that were kept are as they were.
pub(crate) fn stay<R: Files + AllocGlobal>(rt: &R, stage: &mut Stage) -> io::Result<()> {
    let mut all_stay = true;
    for kept in &stage.kept {
        let after = seen_of(rt, kept.file.as_str())?;
        all_stay = all_stay && stays(kept.seen.as_ref(), after.as_ref());
    }
    print_answer(&mut stage.transcript, all_stay)
}
