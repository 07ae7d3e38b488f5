//! Files of stories, line by line.

use crate::commands::{play_command, tell_asked};
use crate::faulty::Plan;
use crate::looking::look;
use crate::making::make;
use crate::redirected::Redirects;
use crate::stage::Stage;
use crate::sweeping::Sweep;
use crate::typed::malformed;
use std::fs::{Files, OpenFile};
use std::io::Write;
use std::os::unix::fs::FileExt;
use std::rt::Env;
use std::sync::Wait;
use std::thread::Threads;
use std::{fs, io};

/// More calls than a command makes.
const MOST_CALLS: u64 = 1_000;

/// Does what a line asks for, but for one that ends a sweep.
fn play_line<
    R: Files<File = F> + Env + AllocGlobal,
    S: Files<File = E> + AllocGlobal + Redirects + Threads + Wait + Sync,
    F: FileExt + OpenFile + Drop,
    E: FileExt + OpenFile + Drop + Send,
>(rt: &R, files: &S, stage: &mut Stage, line: &str) -> io::Result<()> {
    let (verb, rest) = line.split_once(' ').unwrap_or((line, ""));
    match verb {
        "story" => stage.open(rt, rest),
        _ if !stage.is_open() => Err(io::Error::from(io::ErrorKind::InvalidInput)),
        "tpnet" => play_command(rt, files, stage, rest),
        "asked" => tell_asked(files, stage, rest),
        "image"
        | "text"
        | "bytes"
        | "fill"
        | "set"
        | "cut"
        | "grant"
        | "part"
        | "copy"
        | "join"
        | "bring"
        | "link"
        | "symlink"
        | "folder"
        | "remove" => make(rt, verb, rest),
        _ => look(rt, stage, verb, rest),
    }
}

/// Plays lines, of whose first command calls go as a plan says. Answers whether a call of that has failed.
fn play_round<
    R: Files<File = F> + Env + AllocGlobal,
    S: Files<File = E> + AllocGlobal + Redirects + Threads + Wait + Sync,
    F: FileExt + OpenFile + Drop,
    E: FileExt + OpenFile + Drop + Send,
>(rt: &R, files: &S, stage: &mut Stage, lines: &[String], plan: Plan) -> io::Result<bool> {
    stage.transcript.clear();
    stage.next = Some(plan);
    for line in lines {
        play_line(rt, files, stage, line.as_str())?;
    }
    Ok(stage.has_failed)
}

/// Plays the lines of a sweep until no call fails, the first one failing first.
fn play_rounds<
    R: Files<File = F> + Env + AllocGlobal,
    S: Files<File = E> + AllocGlobal + Redirects + Threads + Wait + Sync,
    F: FileExt + OpenFile + Drop,
    E: FileExt + OpenFile + Drop + Send,
>(rt: &R, files: &S, stage: &mut Stage, sweep: &mut Sweep) -> io::Result<()> {
    for number in 0..MOST_CALLS {
        let plan = Plan {
            left: number,
            ..sweep.plan
        };
        if !play_round(rt, files, stage, sweep.lines.as_slice(), plan)? {
            return sweep.end(stage.transcript.as_slice());
        }
        sweep.add(stage.transcript.as_slice())?;
    }
    Err(malformed())
}

/// Ends a sweep: plays its lines, and prints what came of them.
fn end_sweep<
    R: Files<File = F> + Env + AllocGlobal,
    S: Files<File = E> + AllocGlobal + Redirects + Threads + Wait + Sync,
    F: FileExt + OpenFile + Drop,
    E: FileExt + OpenFile + Drop + Send,
>(rt: &R, files: &S, stage: &mut Stage) -> io::Result<()> {
    let Some(mut sweep) = stage.sweep.take() else {
        return Err(malformed());
    };
    sweep.told.extend_from_slice(stage.transcript.as_slice())?;
    let played = play_rounds(rt, files, stage, &mut sweep);
    if played.is_ok() {
        stage.transcript = sweep.told;
    }
    played
}

/// Does what a line asks for.
fn play_any<
    R: Files<File = F> + Env + AllocGlobal,
    S: Files<File = E> + AllocGlobal + Redirects + Threads + Wait + Sync,
    F: FileExt + OpenFile + Drop,
    E: FileExt + OpenFile + Drop + Send,
>(rt: &R, files: &S, stage: &mut Stage, line: &str) -> io::Result<()> {
    if stage.keep_line(rt.alloc(), line)? {
        return Ok(());
    }
    match line {
        "end" => end_sweep(rt, files, stage),
        _ => play_line(rt, files, stage, line),
    }
}

/// Prints a line as it is, and what came of it. Answers whether it could be played.
fn tell_line<
    R: Files<File = F> + Env + AllocGlobal,
    S: Files<File = E> + AllocGlobal + Redirects + Threads + Wait + Sync,
    F: FileExt + OpenFile + Drop,
    E: FileExt + OpenFile + Drop + Send,
>(rt: &R, files: &S, stage: &mut Stage, line: &str) -> io::Result<bool> {
    if line.is_empty() || line.starts_with('#') {
        write!(stage.transcript, "{line}\n")?;
        return Ok(true);
    }
    write!(stage.transcript, "$ {line}\n")?;
    match play_any(rt, files, stage, line) {
        Ok(()) => Ok(true),
        Err(error) => {
            write!(stage.transcript, "? this line can't be played: {error}\n")?;
            Ok(false)
        }
    }
}

/// Plays the lines of a text. Answers whether each could be played.
fn play_lines<
    R: Files<File = F> + Env + AllocGlobal,
    S: Files<File = E> + AllocGlobal + Redirects + Threads + Wait + Sync,
    F: FileExt + OpenFile + Drop,
    E: FileExt + OpenFile + Drop + Send,
    O: Write,
>(rt: &R, files: &S, stage: &mut Stage, text: &str, out: &mut O) -> io::Result<bool> {
    let mut are_played = true;
    for line in text.lines() {
        are_played = tell_line(rt, files, stage, line)? && are_played;
        out.write_all(stage.transcript.as_slice())?;
        stage.transcript.clear();
    }
    Ok(are_played)
}

/// Plays the stories of a file. Answers whether each line could be played.
pub(crate) fn play_file<
    R: Files<File = F> + Env + AllocGlobal,
    S: Files<File = E> + AllocGlobal + Redirects + Threads + Wait + Sync,
    F: FileExt + OpenFile + Drop,
    E: FileExt + OpenFile + Drop + Send,
    O: Write,
>(rt: &R, files: &S, path: &str, out: &mut O) -> io::Result<bool> {
    let text = fs::read_to_string(rt, path)?;
    let mut stage = Stage::new(rt.alloc());
    let are_played = play_lines(rt, files, &mut stage, text.as_str(), out)?;
    stage.close(rt)?;
    Ok(are_played)
}
