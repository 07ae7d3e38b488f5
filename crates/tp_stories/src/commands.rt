//! The program's commands.

use crate::hearing::Heard;
use crate::printed::{print_answer, print_lines};
use crate::redirected::Redirects;
use crate::stage::Stage;
use crate::typed::{malformed, text_of};
use std::alloc::Global;
use std::fs::{Files, OpenFile};
use std::io::{ErrorKind, Write};
use std::os::unix::fs::FileExt;
use std::sync::Wait;
use std::thread::Threads;
use std::{fs, io};
use tp_program::{FileDevices, answer_over};
use tp_stream_files::Plain;

/// What every command is called by. It isn't the program's name, by which a command still speaks of itself.
const CALLED: &str = "/opt/other";

/// A command as it was typed: its words, after what it is called by, and the files that its streams are redirected to.
#[derive(Drop)]
struct Typed {
    words: Vec<String>,
    input: Option<String>,
    out: Option<String>,
    err: Option<String>,
}

/// A word as it was typed: `''` is the empty one; in another one `\n` is an LF, and `\xNN` a byte.
fn word_of(alloc: Global, word: &str) -> io::Result<String> {
    let typed = if word == "''" { "" } else { word };
    let bytes = text_of(alloc, typed)?;
    match str::from_utf8(bytes.as_slice()) {
        Ok(text) => Ok(String::from_str(alloc, text)?),
        Err(_) => Err(malformed()),
    }
}

impl Typed {
    /// Takes a word: `<FILE`, `>FILE` and `2>FILE` redirect a stream.
    fn take(&mut self, alloc: Global, word: &str) -> io::Result<()> {
        if let Some(file) = word.strip_prefix('<') {
            self.input = Some(String::from_str(alloc, file)?);
        } else if let Some(file) = word.strip_prefix('>') {
            self.out = Some(String::from_str(alloc, file)?);
        } else if let Some(file) = word.strip_prefix("2>") {
            self.err = Some(String::from_str(alloc, file)?);
        } else {
            self.words.push(word_of(alloc, word)?)?;
        }
        Ok(())
    }

    /// Reads the words after the name.
    fn read(alloc: Global, words: &str) -> io::Result<Typed> {
        let mut typed = Typed {
            words: Vec::new(alloc),
            input: None,
            out: None,
            err: None,
        };
        typed.take(alloc, CALLED)?;
        for word in words.split_whitespace() {
            typed.take(alloc, word)?;
        }
        Ok(typed)
    }
}

/// The bytes of a command's standard input.
fn input_of<R: Files + AllocGlobal>(rt: &R, typed: &Typed) -> io::Result<Vec<u8>> {
    match &typed.input {
        Some(file) => fs::read(rt, file.as_str()),
        None => Ok(Vec::new(rt.alloc())),
    }
}

/// What a command did: its status, and what it wrote.
#[derive(Drop)]
struct Done {
    status: u8,
    was_heard: bool,
    out: Vec<u8>,
    err: Vec<u8>,
}

/// The reader of standard output: it keeps what comes, and then makes a file, if it is to. Or it takes nothing; or a byte at a time, each after a call
/// that is interrupted.
#[derive(Drop)]
struct Reader<'a, R> {
    rt: &'a R,
    made: Option<&'a String>,
    refuses: Option<ErrorKind>,
    was_interrupted: bool,
    bytes: Vec<u8>,
}

/// Makes an empty file; or a folder, if a `/` is after it, and it isn't there.
fn make<R: Files>(rt: &R, file: &str) -> io::Result<()> {
    match file.strip_suffix('/') {
        Some(folder) if fs::metadata(rt, folder).is_ok() => Ok(()),
        Some(folder) => fs::create_dir(rt, folder),
        None => fs::write(rt, file, b""),
    }
}

impl<'a, R: Files> Write for Reader<'a, R> {
    fn write(&mut self, buf: &[u8]) -> io::Result<usize> {
        let mut taken = buf;
        if let Some(kind) = self.refuses {
            self.was_interrupted = !self.was_interrupted;
            if kind == ErrorKind::WriteZero {
                return Ok(0);
            }
            if kind != ErrorKind::Interrupted || self.was_interrupted {
                return Err(io::Error::from(kind));
            }
            taken = buf.get(..1).unwrap_or(buf);
        }
        self.bytes.extend_from_slice(taken)?;
        if let Some(file) = self.made {
            make(self.rt, file.as_str())?;
        }
        Ok(taken.len())
    }

    fn flush(&mut self) -> io::Result<()> {
        Ok(())
    }
}

/// The most bytes that standard error takes at once.
const MOST_SAID: usize = 20;

/// The reader of standard error: it keeps what comes, and takes few bytes at once; or a byte, after a call that is interrupted.
#[derive(Drop)]
struct Hearer {
    is_slow: bool,
    was_interrupted: bool,
    bytes: Vec<u8>,
}

impl Write for Hearer {
    fn write(&mut self, buf: &[u8]) -> io::Result<usize> {
        self.was_interrupted = self.is_slow && !self.was_interrupted;
        if self.was_interrupted {
            return Err(io::Error::from(ErrorKind::Interrupted));
        }
        let few = buf.len().min(if self.is_slow { 1 } else { MOST_SAID });
        self.bytes.extend_from_slice(&buf[..few])?;
        Ok(few)
    }

    fn flush(&mut self) -> io::Result<()> {
        Ok(())
    }
}

/// Does what a command asks for, as the program does.
fn carry_out<
    R: Files<File = F> + AllocGlobal,
    S: Files<File = E> + AllocGlobal + Redirects + Threads + Wait + Sync,
    F: FileExt + OpenFile + Drop,
    E: FileExt + OpenFile + Drop + Send,
>(rt: &R, files: &S, stage: &Stage, words: &[String], input: &[u8]) -> Done {
    let mut feed = Heard {
        feed: Plain::new(input),
        was_asked: false,
    };
    let mut err = Hearer {
        is_slow: stage.refuses == Some(ErrorKind::Interrupted),
        was_interrupted: false,
        bytes: Vec::new(rt.alloc()),
    };
    let mut out = Reader {
        rt,
        made: stage.made.as_ref(),
        refuses: stage.refuses,
        was_interrupted: false,
        bytes: Vec::new(rt.alloc()),
    };
    let (other, mut steps) = (stage.holding.other(rt, &stage.rival), stage.looks.steps());
    let mut watcher = stage.watched.watcher(rt);
    let mut devices = FileDevices::new(files, other);
    let status = answer_over(
        files,
        &mut devices,
        &mut watcher,
        words,
        &mut feed,
        &mut out,
        &mut err,
        &mut steps,
    );
    Done {
        status,
        was_heard: feed.was_asked,
        out: out.bytes,
        err: err.bytes,
    }
}

/// Prints what came on a stream, or writes it to the file that the stream is redirected to.
fn put<R: Files + AllocGlobal>(
    rt: &R,
    stage: &mut Stage,
    mark: u8,
    file: Option<&String>,
    text: &[u8],
) -> io::Result<()> {
    match file {
        Some(file) => fs::write(rt, file.as_str(), text),
        None => print_lines(&mut stage.transcript, mark, text),
    }
}

/// Prints what a command did.
fn tell<R: Files + AllocGlobal>(
    rt: &R,
    stage: &mut Stage,
    typed: &Typed,
    done: &Done,
) -> io::Result<()> {
    put(rt, stage, b'|', typed.out.as_ref(), done.out.as_slice())?;
    put(rt, stage, b'!', typed.err.as_ref(), done.err.as_slice())?;
    let status = done.status;
    write!(stage.transcript, "status {status}\n")
}

/// Plays a command.
pub(crate) fn play_command<
    R: Files<File = F> + AllocGlobal,
    S: Files<File = E> + AllocGlobal + Redirects + Threads + Wait + Sync,
    F: FileExt + OpenFile + Drop,
    E: FileExt + OpenFile + Drop + Send,
>(rt: &R, files: &S, stage: &mut Stage, words: &str) -> io::Result<()> {
    let typed = Typed::read(rt.alloc(), words)?;
    let input = input_of(rt, &typed)?;
    files.redirect(stage.redirected(rt.alloc())?);
    files.usurp(stage.rival.usurper(rt.alloc())?);
    let next = stage.next.take();
    files.faults().begin(next.unwrap_or(stage.plan));
    let done = carry_out(rt, files, stage, typed.words.as_slice(), input.as_slice());
    if next.is_some() {
        stage.has_failed = files.faults().has_failed();
    }
    stage.was_heard = done.was_heard;
    tell(rt, stage, &typed, &done)
}

/// Prints what the last command asked for: whether `device` was to be opened to write it, how many other files and folders were synced, how many
/// names were made and removed after the last sync of a folder, or whether its standard input was asked for something.
pub(crate) fn tell_asked<S: Redirects>(files: &S, stage: &mut Stage, what: &str) -> io::Result<()> {
    match what {
        "write" => print_answer(&mut stage.transcript, files.faults().asked_write()),
        "stdin" => print_answer(&mut stage.transcript, stage.was_heard),
        "syncs" => {
            let synced = files.faults().synced();
            write!(stage.transcript, "= {synced}\n")
        }
        "names" => {
            let named = files.faults().named();
            write!(stage.transcript, "= {named}\n")
        }
        _ => Err(malformed()),
    }
}
