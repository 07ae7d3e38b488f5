//! `tpnet`: the program.
#![tactic(auto)]

mod apart;
mod backlog;
mod file_lock;
mod holding;
mod late;
mod looking;
mod printing;
mod stand_ins;
mod system;
#[cfg(test)]
mod tests;
mod waiting;
mod watching;

use apart::Apart;
use backlog::Backlog;
use holding::SystemLocks;
use late::Late;
use looking::Looker;
use printing::Printing;
use stand_ins::{ask_system, stand_in};
use std::io::{IsTerminal, Write};
use std::process::ExitCode;
use std::rt::Env;
use std::{env, io};
use tp_program::{FileDevices, answer_over, words_refusal};
use waiting::Patient;
use watching::Watcher;

fn words_of<R: Env + AllocGlobal>(rt: &R) -> io::Result<Vec<String>> {
    let words = env::args(rt)?;
    Ok(words.collect(rt.alloc())?)
}

/// Says why the words can't be taken.
fn refuse_words<E: Write>(err: &mut E, error: &io::Error) -> ExitCode {
    let _ = err.write_all(words_refusal(error).as_bytes());
    ExitCode::from(2)
}

/// Says that it can't be told which files the standard streams are.
fn refuse_streams<E: Write>(err: &mut E) -> ExitCode {
    let _ = write!(
        err,
        "tpnet: it can't be told which files the standard streams are: let /dev/stdout or /proc be there; nothing was opened\n"
    );
    ExitCode::from(2)
}

fn main(rt: HostRuntime) -> ExitCode {
    let _stand_ins = (stand_in(&rt), stand_in(&rt), stand_in(&rt));
    let Some(system) = ask_system(&rt, &rt.stdin(), &rt.stdout(), &rt.stderr()) else {
        return refuse_streams(&mut Patient::new(rt, rt.stderr()));
    };
    let words = match words_of(&rt) {
        Ok(words) => words,
        Err(error) => return refuse_words(&mut Patient::new(rt, rt.stderr()), &error),
    };
    let (out, err) = (rt.stdout(), rt.stderr());
    let backlog = Backlog::new(rt.alloc());
    let mut looker = Looker::new(&rt, backlog.shared(), err.is_terminal(), out.is_terminal());
    let mut out = Printing::new(&rt, Patient::new(rt, out), backlog.shared());
    let mut err = Apart::new(rt, err, backlog);
    let mut devices = FileDevices::new(&system, SystemLocks::new(&rt));
    let mut watch = Watcher::new(&rt);
    let mut feed = Late::new(rt);
    let status = answer_over(
        &system,
        &mut devices,
        &mut watch,
        words.as_slice(),
        &mut feed,
        &mut out,
        &mut err,
        &mut looker,
    );
    let _ = err.flush();
    drop(devices);
    err.end();
    ExitCode::from(status)
}
