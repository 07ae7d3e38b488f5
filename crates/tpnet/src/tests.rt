//! What no contract can say of the system's files, locks, clocks and streams.

use crate::apart::Apart;
use crate::backlog::Backlog;
use crate::file_lock::FileTries;
use crate::holding::SystemLocks;
use crate::looking::Looker;
use crate::printing::Printing;
use crate::stand_ins::{ask_system, stand_in};
use crate::waiting::Patient;
use crate::watching::Watcher;
use std::fs::{Files, OpenOptions};
use std::io::{ErrorKind, Write};
use std::test::Fail;
use std::time::{Clock, Duration};
use std::{fs, io};
use tp_program::{Found, Locks, Tries, Watch, found_at};
use tp_stream_files::{Onlooker, StandardStream, StandardStreams, numbers_in};

/// An empty folder of this name.
fn fresh<R: Files + AllocGlobal>(rt: &R, folder: &str) -> io::Result<()> {
    let _left = fs::remove_dir_all(rt, folder);
    fs::create_dir(rt, folder)
}

#[test]
fn a_device_is_held_by_one_process(rt: HostRuntime) -> Result<(), Fail> {
    let device = "held/device";
    fresh(&rt, "held")?;
    fs::write(&rt, device, b"device")?;
    let (mut watcher, mut locks) = (Watcher::new(&rt), SystemLocks::new(&rt));
    assert!(rt; !watcher.is_held(device), "nobody has it");
    let held = locks.take(device, 0).ok().ok_or("it is free")?;
    assert!(rt; watcher.is_held(device), "it is held");
    assert!(rt; !watcher.is_held("held/other"), "nothing is there");
    let before = rt.monotonic()?;
    assert!(rt; locks.take(device, 0).is_err(), "another one has it");
    let waited = rt.monotonic()?.saturating_sub(before);
    assert!(rt;
        waited >= Duration::from_millis(250),
        "five tries, each behind a pause"
    );
    let before = rt.monotonic()?;
    assert!(rt;
        locks.take(device, 1).is_err(),
        "another one has it for a second"
    );
    assert!(rt;
        rt.monotonic()?.saturating_sub(before) >= Duration::from_millis(1000),
        "twenty tries"
    );
    drop(held);
    assert!(rt; !watcher.is_held(device), "it was let go");
    assert!(rt; locks.take(device, 0).is_ok(), "it is free again");
    fs::remove_dir_all(&rt, "held")?;
    Ok(())
}

#[test]
fn what_was_found_is_kept(rt: HostRuntime) -> Result<(), Fail> {
    let (device, other) = ("kept/device", "kept/other");
    fresh(&rt, "kept")?;
    let locks = SystemLocks::new(&rt);
    let nothing = found_at(&rt, &mut FileTries::new(&rt), device, 0)
        .ok()
        .ok_or("free")?;
    assert!(rt; matches!(&nothing, Found::Nothing), "nothing is there");
    assert!(rt; locks.is_kept(&nothing, device), "it is free still");
    fs::write(&rt, device, b"device")?;
    assert!(rt; !locks.is_kept(&nothing, device), "a file was made");
    let file = found_at(&rt, &mut FileTries::new(&rt), device, 0)
        .ok()
        .ok_or("free")?;
    assert!(rt; matches!(&file, Found::Locked(_)), "a file is locked");
    assert!(rt; locks.is_kept(&file, device), "it is that file");
    fs::write(&rt, other, b"other")?;
    assert!(rt; !locks.is_kept(&file, other), "another file");
    fs::rename(&rt, other, device)?;
    assert!(rt; !locks.is_kept(&file, device), "another file is there now");
    let folder = found_at(&rt, &mut FileTries::new(&rt), "kept", 0)
        .ok()
        .ok_or("nobody's")?;
    assert!(rt; matches!(&folder, Found::Other), "a folder is no device");
    assert!(rt; locks.is_kept(&folder, "kept"), "it is nobody's");
    fs::remove_dir_all(&rt, "kept")?;
    Ok(())
}

#[test]
fn a_file_that_was_made_is_held_at_once(rt: HostRuntime) -> Result<(), Fail> {
    let device = "made/device";
    fresh(&rt, "made")?;
    let mut locks = SystemLocks::new(&rt);
    let mut how = OpenOptions::new();
    let how = how.read(true).write(true);
    let file = how.create(true).open(&rt, device)?;
    let again = how.open(&rt, device)?;
    let held = locks.take_made(device, file).ok().ok_or("it is free")?;
    let before = rt.monotonic()?;
    assert!(rt;
        locks.take_made(device, again).is_err(),
        "another one took it first"
    );
    assert!(rt;
        rt.monotonic()?.saturating_sub(before) < Duration::from_millis(200),
        "it doesn't wait"
    );
    drop(held);
    let mut shared = (FileTries::shared(&rt), FileTries::shared(&rt));
    let (one, other) = (how.open(&rt, device)?, how.open(&rt, device)?);
    assert!(rt; !shared.0.is_taken(&one, None), "a shared lock is free");
    assert!(rt; !shared.1.is_taken(&other, None), "two may have it");
    fs::remove_dir_all(&rt, "made")?;
    Ok(())
}

#[test]
fn clocks_go_on(rt: HostRuntime) -> Result<(), Fail> {
    let mut watcher = Watcher::new(&rt);
    let (now, clock) = (watcher.now()?, watcher.clock()?);
    assert!(rt;
        clock > Duration::from_secs(1_700_000_000),
        "it is long after 1970"
    );
    assert!(rt; now < clock, "the system began after 1970");
    assert!(rt; watcher.pause(1), "it is to check again");
    let passed = watcher.now()?.saturating_sub(now);
    assert!(rt; passed >= Duration::from_secs(1), "a second has passed");
    assert!(rt; passed < Duration::from_secs(50), "and not much more");
    Ok(())
}

#[test]
fn the_system_makes_each_call(rt: HostRuntime) -> Result<(), Fail> {
    fresh(&rt, "calls")?;
    let streams = (rt.stdin(), rt.stdout(), rt.stderr());
    let system = ask_system(&rt, &streams.0, &streams.1, &streams.2).ok_or("they are told")?;
    fs::create_dir(&system, "calls/folder")?;
    fs::write(&system, "calls/one", b"bytes")?;
    fs::copy(&system, "calls/one", "calls/two")?;
    fs::rename(&system, "calls/two", "calls/folder/two")?;
    fs::hard_link(&system, "calls/one", "calls/three")?;
    assert_eq!(rt;
        fs::read(&system, "calls/folder/two")?.as_slice(),
        b"bytes".as_slice()
    );
    assert!(rt;
        fs::metadata(&system, "calls/two").is_err(),
        "it was renamed"
    );
    let (one, three) = (
        fs::metadata(&system, "calls/one")?,
        fs::metadata(&system, "calls/three")?,
    );
    assert!(rt;
        numbers_in(&one) == numbers_in(&three),
        "one file has two names"
    );
    assert!(rt; system.open_dir("calls/folder").is_ok(), "it can be listed");
    assert!(rt; system.open_dir("calls/one").is_err(), "it is no folder");
    fs::remove_file(&system, "calls/three")?;
    assert!(rt;
        fs::symlink_metadata(&system, "calls/three").is_err(),
        "it was removed"
    );
    assert!(rt;
        fs::symlink_metadata(&system, "calls/one")?.is_file(),
        "the other name is there"
    );
    assert!(rt;
        fs::remove_dir(&system, "calls/folder").is_err(),
        "it isn't empty"
    );
    fs::remove_dir_all(&system, "calls")?;
    assert!(rt; fs::metadata(&system, "calls").is_err(), "all was removed");
    Ok(())
}

#[test]
fn standard_streams_are_told(rt: HostRuntime) -> Result<(), Fail> {
    assert!(rt; stand_in(&rt).is_none(), "none is closed");
    let streams = (rt.stdin(), rt.stdout(), rt.stderr());
    let system = ask_system(&rt, &streams.0, &streams.1, &streams.2).ok_or("they are told")?;
    let paths = [
        (StandardStream::In, "/dev/stdin"),
        (StandardStream::Out, "/dev/stdout"),
        (StandardStream::Error, "/dev/stderr"),
    ];
    for (stream, path) in paths {
        let (file, kept) = (system.behind(stream), fs::metadata(&rt, path)?);
        assert!(rt; file.numbers == numbers_in(&kept), "{path}");
        assert_eq!(rt; file.is_regular, kept.is_file());
    }
    Ok(())
}

/// A writer that appends to the file at a path. It doesn't wait each second time that it is called.
#[derive(Clone, Copy, Drop)]
struct Appending<R> {
    rt: R,
    path: &'static str,
    is_asked: bool,
}

impl<R: Files> Write for Appending<R> {
    fn write(&mut self, buf: &[u8]) -> io::Result<usize> {
        self.is_asked = !self.is_asked;
        if self.is_asked {
            return Err(io::Error::from(ErrorKind::WouldBlock));
        }
        let mut file = OpenOptions::new()
            .append(true)
            .create(true)
            .open(&self.rt, self.path)?;
        file.write(buf)
    }

    fn flush(&mut self) -> io::Result<()> {
        Ok(())
    }
}

#[test]
fn what_is_said_is_written_in_order(rt: HostRuntime) -> Result<(), Fail> {
    fresh(&rt, "said")?;
    let to = Appending {
        rt,
        path: "said/err",
        is_asked: false,
    };
    let backlog = Backlog::new(rt.alloc());
    let (seen, shown) = (backlog.shared(), backlog.shared());
    let mut err = Apart::new(rt, to, backlog);
    for piece in ["one ", "two ", "three"] {
        err.write_all(piece.as_bytes())?;
    }
    err.flush()?;
    assert!(rt; seen.is_empty(), "all is written");
    assert_eq!(rt;
        fs::read(&rt, "said/err")?.as_slice(),
        b"one two three".as_slice()
    );
    err.write_all(b", four")?;
    err.end();
    assert_eq!(rt;
        fs::read(&rt, "said/err")?.as_slice(),
        b"one two three, four".as_slice()
    );
    let mut out = Printing::new(&rt, Patient::new(rt, to), shown);
    out.write_all(b"!")?;
    assert_eq!(rt;
        fs::read(&rt, "said/err")?.as_slice(),
        b"one two three, four!".as_slice()
    );
    fs::remove_dir_all(&rt, "said")?;
    Ok(())
}

#[test]
fn while_something_is_unwritten_there_is_no_time(rt: HostRuntime) -> Result<(), Fail> {
    let backlog = Backlog::new(rt.alloc());
    assert!(rt;
        backlog.is_counted() && backlog.is_empty(),
        "all is written"
    );
    let mut looker = Looker::new(&rt, backlog.shared(), true, false);
    assert!(rt;
        looker.is_terminal() && !looker.is_output_terminal(),
        "it was told so"
    );
    let first = looker.now().ok_or("all is written")?;
    backlog.add();
    backlog.add();
    assert!(rt; looker.now().is_none(), "two pieces aren't written");
    let mut out = Printing::new(&rt, Vec::new(rt.alloc()), backlog.shared());
    let before = rt.monotonic()?;
    out.write_all(b"one")?;
    let waited = rt.monotonic()?.saturating_sub(before);
    assert!(rt;
        waited >= Duration::from_secs(5),
        "its first byte waits for some seconds"
    );
    assert!(rt; waited < Duration::from_secs(50), "and then no longer");
    let before = rt.monotonic()?;
    out.write_all(b"two")?;
    assert!(rt;
        rt.monotonic()?.saturating_sub(before) < Duration::from_secs(4),
        "no other one waits"
    );
    backlog.take();
    assert!(rt; !backlog.is_empty(), "one piece isn't written");
    backlog.shared().take();
    backlog.wait(&rt);
    let later = looker.now().ok_or("all is written again")?;
    assert!(rt;
        later >= first.saturating_add(5000),
        "milliseconds have passed"
    );
    assert!(rt;
        later < first.saturating_add(50_000),
        "and no smaller parts of a second"
    );
    Ok(())
}
