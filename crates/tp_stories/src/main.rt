//! `tp_stories`: plays stories of commands, and prints what each of them did.
#![tactic(auto)]

mod commands;
mod failing;
mod faulty;
mod hearing;
mod holding;
mod looking;
mod making;
mod onlooking;
mod playing;
mod printed;
mod redirected;
mod rival;
mod stage;
mod staying;
mod sweeping;
mod typed;
mod watching;

use faulty::Faults;
use playing::play_file;
use redirected::{Redirected, Redirects};
use std::fs::{Files, OpenFile};
use std::io::Write;
use std::os::unix::fs::FileExt;
use std::process::ExitCode;
use std::rt::Env;
use std::sync::Wait;
use std::thread::Threads;
use std::{env, io};

/// Plays the files of stories that the words name. Answers whether each line of them could be played.
fn play_files<
    R: Files<File = F> + Env + AllocGlobal,
    S: Files<File = E> + AllocGlobal + Redirects + Threads + Wait + Sync,
    F: FileExt + OpenFile + Drop,
    E: FileExt + OpenFile + Drop + Send,
    O: Write,
>(rt: &R, files: &S, out: &mut O) -> io::Result<bool> {
    let mut are_played = true;
    for path in env::args(rt)?.skip(1) {
        are_played = play_file(rt, files, path.as_str(), out)? && are_played;
    }
    out.flush()?;
    Ok(are_played)
}

fn main(rt: HostRuntime) -> ExitCode {
    let mut out = rt.stdout();
    let faults = Faults::none();
    let files = Redirected::new(&rt, &faults);
    match play_files(&rt, &files, &mut out) {
        Ok(true) => ExitCode::SUCCESS,
        Ok(false) => ExitCode::from(1),
        Err(error) => {
            let _ = write!(rt.stderr(), "tp_stories: {error}\n");
            ExitCode::from(2)
        }
    }
}
