//! Bytes as printable text.

use std::io;
use std::io::Write;

/// Prints a byte: as it is, or as `\xNN` if it is no printable text.
fn print_byte(transcript: &mut Vec<u8>, byte: u8) -> io::Result<()> {
    match byte {
        b'\\' => write!(transcript, "\\x5C"),
        b' '..=b'~' => Ok(transcript.push(byte)?),
        _ => write!(transcript, "\\x{byte:02X}"),
    }
}

/// Prints a line after a mark. One that has no LF ends in `\`.
fn print_line(transcript: &mut Vec<u8>, mark: u8, line: &[u8]) -> io::Result<()> {
    transcript.extend_from_slice(&[mark, b' '])?;
    let text = line.strip_suffix(b"\n").unwrap_or(line);
    for byte in text {
        print_byte(transcript, *byte)?;
    }
    let end: &[u8] = if text.len() == line.len() {
        b"\\\n"
    } else {
        b"\n"
    };
    Ok(transcript.extend_from_slice(end)?)
}

/// Prints each line of a text after a mark.
pub(crate) fn print_lines(transcript: &mut Vec<u8>, mark: u8, text: &[u8]) -> io::Result<()> {
    for line in text.split_inclusive(|byte| *byte == b'\n') {
        print_line(transcript, mark, line)?;
    }
    Ok(())
}

/// Prints bytes in hexadecimal.
pub(crate) fn print_hex(transcript: &mut Vec<u8>, bytes: &[u8]) -> io::Result<()> {
    write!(transcript, "=")?;
    for byte in bytes {
        write!(transcript, " {byte:02X}")?;
    }
    write!(transcript, "\n")
}

/// Prints an answer to a question.
pub(crate) fn print_answer(transcript: &mut Vec<u8>, is_so: bool) -> io::Result<()> {
    let answer = if is_so { "yes" } else { "no" };
    write!(transcript, "= {answer}\n")
}
