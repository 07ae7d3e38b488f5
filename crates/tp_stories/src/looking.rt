//! What looks at the files of a story.

use crate::printed::{print_answer, print_hex};
use crate::stage::Stage;
use crate::staying::{keep, stay};
use crate::typed::{count_of, malformed, number_of, parted, text_of};
use std::fs::{Files, OpenOptions};
use std::io::Write;
use std::os::unix::fs::{FileExt, PermissionsExt};
use std::{fs, io};

/// Reads bytes of a file from an offset on, just as many as are asked for.
pub(crate) fn read_part<R: Files<File = F> + AllocGlobal, F: FileExt + Drop>(
    rt: &R,
    file: &str,
    offset: u64,
    count: usize,
) -> io::Result<Vec<u8>> {
    let mut bytes = Vec::from_elem(rt.alloc(), 0u8, count)?;
    let mut how = OpenOptions::new();
    let file = how.read(true).open(rt, file)?;
    file.read_exact_at(bytes.as_mut_slice(), offset)?;
    Ok(bytes)
}

/// Prints bytes from an offset on, as many as are asked for.
fn show<R: Files<File = F> + AllocGlobal, F: FileExt + Drop>(
    rt: &R,
    stage: &mut Stage,
    file: &str,
    words: &str,
) -> io::Result<()> {
    let (offset, count) = parted(words);
    let bytes = read_part(rt, file, number_of(offset)?, count_of(count)?)?;
    print_hex(&mut stage.transcript, bytes.as_slice())
}

/// Prints the length of a file.
fn tell_length<R: Files>(rt: &R, stage: &mut Stage, file: &str) -> io::Result<()> {
    let length = fs::metadata(rt, file)?.len();
    write!(stage.transcript, "= {length}\n")
}

/// Prints who may read, write and run a file, in three octal digits; or that it doesn't exist.
fn tell_rights<R: Files>(rt: &R, stage: &mut Stage, file: &str) -> io::Result<()> {
    let Ok(kept) = fs::metadata(rt, file) else {
        return Ok(stage.transcript.extend_from_slice(b"= none\n")?);
    };
    let rights = kept.permissions().mode() & 0o777;
    write!(stage.transcript, "= {rights:03o}\n")
}

/// Whether the bytes of two files are equal.
fn are_equal<R: Files + AllocGlobal>(rt: &R, one: &str, other: &str) -> io::Result<bool> {
    let (one, other) = (fs::read(rt, one)?, fs::read(rt, other)?);
    Ok(one.as_slice() == other.as_slice())
}

/// Whether the bytes of a file are equal to those of one of these.
fn is_among<R: Files + AllocGlobal>(rt: &R, file: &str, others: &str) -> io::Result<bool> {
    for other in others.split_whitespace() {
        if are_equal(rt, file, other)? {
            return Ok(true);
        }
    }
    Ok(false)
}

/// Whether a file's bytes begin with all those of another.
fn begins<R: Files + AllocGlobal>(rt: &R, file: &str, other: &str) -> io::Result<bool> {
    let (bytes, front) = (fs::read(rt, file)?, fs::read(rt, other)?);
    Ok(bytes.as_slice().starts_with(front.as_slice()))
}

/// Whether a text is in a file: at its start, at its end, or anywhere.
fn says<R: Files + AllocGlobal>(rt: &R, verb: &str, file: &str, text: &str) -> io::Result<bool> {
    let (bytes, text) = (fs::read(rt, file)?, text_of(rt.alloc(), text)?);
    let (bytes, text) = (
        str::from_utf8(bytes.as_slice()),
        str::from_utf8(text.as_slice()),
    );
    match (verb, bytes, text) {
        ("starts", Ok(bytes), Ok(text)) => Ok(bytes.starts_with(text)),
        ("ends", Ok(bytes), Ok(text)) => Ok(bytes.ends_with(text)),
        (_, Ok(bytes), Ok(text)) => Ok(bytes.contains(text)),
        _ => Err(malformed()),
    }
}

/// The answer to a question about a file.
fn is_so<R: Files + AllocGlobal>(rt: &R, verb: &str, file: &str, rest: &str) -> io::Result<bool> {
    match verb {
        "there" => Ok(fs::metadata(rt, file).is_ok()),
        "equal" => are_equal(rt, file, rest),
        "among" => is_among(rt, file, rest),
        "begins" => begins(rt, file, rest),
        "empty" => Ok(fs::metadata(rt, file)?.len() == 0),
        _ => says(rt, verb, file, rest),
    }
}

/// Prints the answer to a question about a file.
fn answer<R: Files + AllocGlobal>(
    rt: &R,
    stage: &mut Stage,
    verb: &str,
    words: &str,
) -> io::Result<()> {
    let (file, rest) = parted(words);
    let is_so = is_so(rt, verb, file, rest)?;
    print_answer(&mut stage.transcript, is_so)
}

/// Prints what a line asks for.
pub(crate) fn look<R: Files<File = F> + AllocGlobal, F: FileExt + Drop>(
    rt: &R,
    stage: &mut Stage,
    verb: &str,
    words: &str,
) -> io::Result<()> {
    let (file, rest) = parted(words);
    match verb {
        "show" => show(rt, stage, file, rest),
        "length" => tell_length(rt, stage, file),
        "rights" => tell_rights(rt, stage, file),
        "there" | "equal" | "among" | "begins" | "has" | "starts" | "ends" | "empty" => {
            answer(rt, stage, verb, words)
        }
        "stand" => stage.stand(rt.alloc(), words),
        "reader-makes" => stage.reader_makes(rt.alloc(), words),
        "keep" => keep(rt, stage, words),
        "stay" => stay(rt, stage),
        "held" => stage.hold(rt.alloc(), words),
        "rival" => stage.meet(rt.alloc(), words),
        "looks" => stage.look_on(words),
        "watched" => stage.watch(rt.alloc(), words),
        "shut" => stage.shut(words),
        "calls" => stage.call(words),
        "sweep" => stage.begin_sweep(rt.alloc(), words),
        _ => Err(malformed()),
    }
}
