//! Where a story is played.

use crate::failing::read_calls;
use crate::faulty::Plan;
use crate::holding::Holding;
use crate::onlooking::Looks;
use crate::rival::Rival;
use crate::staying::Kept;
use crate::sweeping::Sweep;
use crate::typed::malformed;
use crate::watching::Watched;
use std::alloc::Global;
use std::fs::Files;
use std::io::ErrorKind;
use std::rt::Env;
use std::{env, fs, io};
use tp_stream_files::StandardStream;

/// Where a story is played: in a folder of its own.
#[derive(Drop)]
pub(crate) struct Stage {
    /// The story's folder, once one has begun.
    folder: Option<String>,
    /// What was printed and isn't written yet.
    pub(crate) transcript: Vec<u8>,
    /// Standard streams that are files of the story, and the path of each.
    pub(crate) streams: Vec<(StandardStream, String)>,
    /// The file that the reader of a stream's standard output makes once something has come, if it makes one.
    pub(crate) made: Option<String>,
    /// What the reader of standard output says, if it takes nothing.
    pub(crate) refuses: Option<ErrorKind>,
    /// What files were.
    pub(crate) kept: Vec<Kept>,
    /// Another process that has devices.
    pub(crate) holding: Holding,
    /// Another process that wants the path at which a device is made.
    pub(crate) rival: Rival,
    /// Who looks at streams.
    pub(crate) looks: Looks,
    /// What `status` is told beside a device.
    pub(crate) watched: Watched,
    /// How calls of commands go.
    pub(crate) plan: Plan,
    /// How those of the next command go, if they go in another way.
    pub(crate) next: Option<Plan>,
    /// Whether a call of the last command failed whose calls went in another way.
    pub(crate) has_failed: bool,
    /// Lines that are to be played again and again, while they come.
    pub(crate) sweep: Option<Sweep>,
    /// Whether the last command asked its standard input.
    pub(crate) was_heard: bool,
}

impl Stage {
    /// No story has begun.
    pub(crate) fn new(alloc: Global) -> Stage {
        Stage {
            folder: None,
            transcript: Vec::new(alloc),
            streams: Vec::new(alloc),
            made: None,
            refuses: None,
            kept: Vec::new(alloc),
            holding: Holding::none(alloc),
            rival: Rival::none(alloc),
            looks: Looks::PLAIN,
            watched: Watched::none(alloc),
            plan: Plan::NONE,
            next: None,
            has_failed: false,
            sweep: None,
            was_heard: false,
        }
    }

    /// Whether a story has begun.
    pub(crate) fn is_open(&self) -> bool {
        self.folder.is_some()
    }

    /// Begins a story in an empty folder.
    pub(crate) fn open<R: Files + Env + AllocGlobal>(
        &mut self,
        rt: &R,
        name: &str,
    ) -> io::Result<()> {
        self.close(rt)?;
        let folder = format!(in rt.alloc(); "scratch/{name}")?;
        let _left = fs::remove_dir_all(rt, folder.as_str());
        fs::create_dir_all(rt, folder.as_str())?;
        env::set_current_dir(rt, folder.as_str())?;
        self.folder = Some(folder);
        Ok(())
    }

    /// Says which files standard streams of the commands after this line are: words as `stdout=FILE`.
    pub(crate) fn stand(&mut self, alloc: Global, words: &str) -> io::Result<()> {
        self.streams.clear();
        for word in words.split_whitespace() {
            let (stream, file) = match word.split_once('=') {
                Some(("stdin", file)) => (StandardStream::In, file),
                Some(("stdout", file)) => (StandardStream::Out, file),
                Some(("stderr", file)) => (StandardStream::Error, file),
                _ => return Err(malformed()),
            };
            self.streams.push((stream, String::from_str(alloc, file)?))?;
        }
        Ok(())
    }

    /// The standard streams that are files, and the path of each.
    pub(crate) fn redirected(&self, alloc: Global) -> io::Result<Vec<(StandardStream, String)>> {
        let mut streams = Vec::new(alloc);
        for (stream, file) in &self.streams {
            streams.push((*stream, String::from_str(alloc, file.as_str())?))?;
        }
        Ok(streams)
    }

    /// Says which file the reader of standard output makes in the streams after this line; with no word none.
    pub(crate) fn reader_makes(&mut self, alloc: Global, words: &str) -> io::Result<()> {
        self.made = match words {
            "" => None,
            file => Some(String::from_str(alloc, file)?),
        };
        Ok(())
    }

    /// Says that standard output takes nothing in the commands after this line, as on a full disk or once its reader has gone, or without a fault; or
    /// that it and standard error take a byte at a time, each after a call that is interrupted. With no word it takes all.
    pub(crate) fn shut(&mut self, word: &str) -> io::Result<()> {
        self.refuses = match word {
            "" => None,
            "full" => Some(ErrorKind::StorageFull),
            "gone" => Some(ErrorKind::BrokenPipe),
            "none" => Some(ErrorKind::WriteZero),
            "slow" => Some(ErrorKind::Interrupted),
            _ => return Err(malformed()),
        };
        Ok(())
    }

    /// Says that another process has devices in the commands after this line; with no word nobody has.
    pub(crate) fn hold(&mut self, alloc: Global, words: &str) -> io::Result<()> {
        self.holding = Holding::read(alloc, words)?;
        Ok(())
    }

    /// Says what another process does at the path of a device that the commands after this line make; with no word there is no such process.
    pub(crate) fn meet(&mut self, alloc: Global, words: &str) -> io::Result<()> {
        self.rival = Rival::read(alloc, words)?;
        Ok(())
    }

    /// Says who looks at the streams after this line.
    pub(crate) fn look_on(&mut self, words: &str) -> io::Result<()> {
        self.looks = Looks::read(words)?;
        Ok(())
    }

    /// Says what `status` is told in the commands after this line; with no word no other process has a device, and it checks once.
    pub(crate) fn watch(&mut self, alloc: Global, words: &str) -> io::Result<()> {
        self.watched = Watched::read(alloc, words)?;
        Ok(())
    }

    /// Says how calls go in the commands after this line.
    pub(crate) fn call(&mut self, words: &str) -> io::Result<()> {
        self.plan = read_calls(words)?;
        Ok(())
    }

    /// Says that the lines after this one are to be played again and again.
    pub(crate) fn begin_sweep(&mut self, alloc: Global, words: &str) -> io::Result<()> {
        self.sweep = Some(Sweep::read(alloc, words)?);
        Ok(())
    }

    /// Keeps a line that is to be played again and again, and answers true; or that there are none such.
    pub(crate) fn keep_line(&mut self, alloc: Global, line: &str) -> io::Result<bool> {
        match &mut self.sweep {
            Some(sweep) if line != "end" => {
                sweep.lines.push(String::from_str(alloc, line)?)?;
                Ok(true)
            }
            _ => Ok(false),
        }
    }

    /// Ends the story that has begun, and removes its folder.
    pub(crate) fn close<R: Files + Env + AllocGlobal>(&mut self, rt: &R) -> io::Result<()> {
        self.streams.clear();
        self.made = None;
        self.refuses = None;
        self.kept.clear();
        self.holding = Holding::none(rt.alloc());
        self.rival = Rival::none(rt.alloc());
        self.looks = Looks::PLAIN;
        self.watched = Watched::none(rt.alloc());
        self.plan = Plan::NONE;
        self.next = None;
        self.sweep = None;
        let Some(folder) = self.folder.take() else {
            return Ok(());
        };
        env::set_current_dir(rt, "../..")?;
        fs::remove_dir_all(rt, folder.as_str())
    }
}
