//! What makes the files of a story.

use crate::looking::read_part;
use crate::typed::{bytes_of, count_of, malformed, number_of, parted, text_of};
use std::alloc::Global;
use std::fs::{Files, OpenFile, OpenOptions, Permissions};
use std::os::unix::fs::{FileExt, PermissionsExt, symlink};
use std::{fs, io};
use tp_tests_fixtures::{HEAD, letter, place};

/// Where the process of an image begins, after the image's head.
const CODE: usize = HEAD + 0x100;

/// The image of a node of four pages that sends the letter A, or does what other instructions say.
fn image_of(alloc: Global, code: &str) -> io::Result<Vec<u8>> {
    let mut image = letter(alloc)?;
    let code = bytes_of(alloc, code)?;
    place(&mut image, CODE, code.as_slice());
    Ok(image)
}

/// As many bytes as the first word says: those of the words after it, again and again.
fn filled(alloc: Global, words: &str) -> io::Result<Vec<u8>> {
    let (count, round) = parted(words);
    let (count, round) = (count_of(count)?, bytes_of(alloc, round)?);
    let mut bytes = Vec::with_capacity(alloc, count)?;
    for byte in round.iter().cycle().take(count) {
        bytes.push(*byte)?;
    }
    Ok(bytes)
}

/// Opens a file to write it.
fn opened<R: Files>(rt: &R, file: &str) -> io::Result<R::File> {
    let mut how = OpenOptions::new();
    how.write(true).open(rt, file)
}

/// Writes bytes at an offset.
fn set<R: Files<File = F> + AllocGlobal, F: FileExt + Drop>(
    rt: &R,
    file: &str,
    words: &str,
) -> io::Result<()> {
    let (offset, bytes) = parted(words);
    let bytes = bytes_of(rt.alloc(), bytes)?;
    opened(rt, file)?.write_all_at(bytes.as_slice(), number_of(offset)?)
}

/// Gives a file a length.
fn cut<R: Files<File = F>, F: OpenFile + Drop>(rt: &R, file: &str, length: &str) -> io::Result<()> {
    opened(rt, file)?.set_len(number_of(length)?)
}

/// Makes a file of a part of another: bytes from an offset on, as many as are asked for.
fn part<R: Files<File = F> + AllocGlobal, F: FileExt + Drop>(
    rt: &R,
    file: &str,
    words: &str,
) -> io::Result<()> {
    let (new, words) = parted(words);
    let (offset, count) = parted(words);
    let bytes = read_part(rt, file, number_of(offset)?, count_of(count)?)?;
    fs::write(rt, new, bytes)
}

/// Copies a file of the folder in which the stories are.
fn bring<R: Files + AllocGlobal>(rt: &R, from: &str, file: &str) -> io::Result<()> {
    let from = format!(in rt.alloc(); "../../{from}")?;
    copy(rt, from.as_str(), file)
}

/// Copies a file. One that is there is written over.
fn copy<R: Files>(rt: &R, from: &str, file: &str) -> io::Result<()> {
    let _length = fs::copy(rt, from, file)?;
    Ok(())
}

/// Makes a file of the bytes of others, one after another.
fn join<R: Files + AllocGlobal>(rt: &R, new: &str, files: &str) -> io::Result<()> {
    let mut bytes = Vec::new(rt.alloc());
    for file in files.split_whitespace() {
        bytes.extend_from_slice(fs::read(rt, file)?.as_slice())?;
    }
    fs::write(rt, new, bytes)
}

/// Gives a file its rights, which are three octal digits.
fn grant<R: Files>(rt: &R, file: &str, rights: &str) -> io::Result<()> {
    match u32::from_str_radix(rights, 8) {
        Ok(rights) => fs::set_permissions(rt, file, Permissions::from_mode(rights)),
        Err(_) => Err(malformed()),
    }
}

/// Removes a file, if it is there.
fn remove<R: Files>(rt: &R, file: &str) -> io::Result<()> {
    let _missing = fs::remove_file(rt, file);
    Ok(())
}

/// The bytes of a file, as a line says.
fn made(alloc: Global, verb: &str, words: &str) -> io::Result<Vec<u8>> {
    match verb {
        "image" => image_of(alloc, words),
        "text" => text_of(alloc, words),
        "bytes" => bytes_of(alloc, words),
        _ => filled(alloc, words),
    }
}

/// Writes a file, as a line says.
fn write<R: Files + AllocGlobal>(rt: &R, verb: &str, file: &str, words: &str) -> io::Result<()> {
    fs::write(rt, file, made(rt.alloc(), verb, words)?)
}

/// Makes or changes a file, as a line says.
pub(crate) fn make<R: Files<File = F> + AllocGlobal, F: FileExt + OpenFile + Drop>(
    rt: &R,
    verb: &str,
    words: &str,
) -> io::Result<()> {
    let (file, rest) = parted(words);
    match verb {
        "image" | "text" | "bytes" | "fill" => write(rt, verb, file, rest),
        "set" => set(rt, file, rest),
        "cut" => cut(rt, file, rest),
        "grant" => grant(rt, file, rest),
        "part" => part(rt, file, rest),
        "copy" => copy(rt, file, rest),
        "join" => join(rt, file, rest),
        "bring" => bring(rt, file, rest),
        "link" => fs::hard_link(rt, file, rest),
        "symlink" => symlink(rt, file, rest),
        "folder" => fs::create_dir(rt, file),
        "remove" => remove(rt, file),
        _ => Err(malformed()),
    }
}
