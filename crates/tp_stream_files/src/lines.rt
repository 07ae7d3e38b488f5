//! Lines about how far a stream has come: when one is due, and what it says.

ghost use Rattle.std.specs.Prelude.{◌≡◌, ◌++◌, ◌*◌, None, IfOk, OnOk, string_bytes};
ghost use Rattle.tp_stream_files.specs.Lines.{count_part, front_part, growth_part, heard, heard_then, line_due, line_text, line_then, out_part, out_parts, put_before, since_put, standing_part, turns_part};

use crate::Progress;
use std::alloc::{AllocError, Global};
use std::fmt::Write;

/// How many milliseconds a second has.
const SECOND: u64 = 1000;

/// How far a stream had come, and when that was heard, in milliseconds.
#[derive(Clone, Copy)]
pub struct Heard {
    at: u64,
    progress: Progress,
}

/// A line: how far a stream has come, and how far it had come `millis` milliseconds before, at the last line or at the beginning.
#[derive(Clone, Copy)]
pub struct Line {
    told: Progress,
    before: Progress,
    millis: u64,
}

/// A number as it was `millis` milliseconds before.
#[derive(Clone, Copy)]
struct Since {
    count: u64,
    millis: u64,
}

/// Says when lines are due: `every` milliseconds after the last one, or after the beginning.
#[derive(Clone, Copy)]
pub struct Meter {
    every: u64,
    last: Option<Heard>,
}

impl Meter {
    /// Begins: a line is due each time that `seconds` seconds have passed. The time counts from what is heard first.
    pub fn new(seconds: u32) -> Meter
        ensures { result ≡ record { every = seconds * 1000; last = None } }
    {
        Meter {
            every: u64::from(seconds) * SECOND,
            last: None,
        }
    }

    /// Hears how far a stream has come, and when. Answers the line that is due then; the next one counts from this moment.
    pub fn hear(&mut self, at: u64, progress: Progress) -> Option<Line>
        ensures due { result ≡ line_due self.old at progress }
        ensures left { self.new ≡ heard self.old at progress }
    {
        let here = Some(Heard { at, progress });
        let Some(last) = self.last else {
            self.last = here;
            return None;
        };
        let millis = at.saturating_sub(last.at);
        if millis < self.every {
            return None;
        }
        self.last = here;
        Some(Line {
            told: progress,
            before: last.progress,
            millis,
        })
    }

    /// Hears how far a stream has come, if there is a time. Without a time no line is due, and the next one also covers what this one would have
    /// said.
    pub fn hear_then(&mut self, at: Option<u64>, progress: Progress) -> Option<Line>
        ensures due { result ≡ line_then self.old at progress }
        ensures left { self.new ≡ heard_then self.old at progress }
    {
        match at {
            Some(at) => self.hear(at, progress),
            None => None,
        }
    }
}

/// Appends by how much a number grew in a second, if it was known before.
fn push_growth(text: &mut String, now: u64, since: Option<Since>) -> Result<(), AllocError>
    ensures { OnOk result (string_bytes text.new ≡ string_bytes text.old ++ growth_part now since) }
{
    match since {
        Some(Since { count, millis }) if millis != 0 => {
            let rate = now.saturating_sub(count) as u128 * 1000 / millis as u128;
            write!(text, " +{rate}/s")
        }
        _ => Ok(()),
    }
}

/// Appends a number, and by how much it grew in a second.
fn push_count(text: &mut String, now: u64, since: Option<Since>) -> Result<(), AllocError>
    ensures { OnOk result (string_bytes text.new ≡ string_bytes text.old ++ count_part now since) }
{
    write!(text, "{now}")?;
    push_growth(text, now, since)
}

/// Appends a word, a number, and by how much that grew in a second.
fn push_named(
    text: &mut String,
    word: &str,
    now: u64,
    since: Option<Since>,
) -> Result<(), AllocError>
    ensures { OnOk result (string_bytes text.new ≡ string_bytes text.old ++ (word.now ++ count_part now since)) }
{
    text.push_str(word)?;
    push_count(text, now, since)
}

/// Appends how many entries are durable, how full the journal is, and to which checkpoint it belongs.
fn push_standing(text: &mut String, told: &Progress) -> Result<(), AllocError>
    ensures { OnOk result (string_bytes text.new ≡ string_bytes text.old ++ standing_part told.now) }
{
    let (mark, used, generation) = (told.mark, told.used, told.generation);
    write!(text, " mark {mark} area {used}% generation {generation}")
}

/// Appends how many entries were made, how many of them are durable, how full the journal is, and to which checkpoint it belongs.
fn push_front(text: &mut String, line: &Line) -> Result<(), AllocError>
    ensures { OnOk result (string_bytes text.new ≡ string_bytes text.old ++ front_part line.now) }
{
    let since = Since {
        count: line.before.next,
        millis: line.millis,
    };
    push_named(text, "next ", line.told.next, Some(since))?;
    push_standing(text, &line.told)
}

/// Appends how many turns were made.
fn push_turns(text: &mut String, line: &Line) -> Result<(), AllocError>
    ensures { OnOk result (string_bytes text.new ≡ string_bytes text.old ++ turns_part line.now) }
{
    let since = Since {
        count: line.before.turns,
        millis: line.millis,
    };
    push_named(text, " turns ", line.told.turns, Some(since))
}

/// Gives up to which position the outputs of a port were put, if a sink is for it.
fn put_before(put: &[Option<u64>], port: usize) -> Option<u64>
    ensures { result ≡ put_before put.now port }
{
    match put.get(port) {
        Some(position) => *position,
        None => None,
    }
}

/// Gives up to which position they were put `millis` milliseconds before.
fn since_put(millis: u64, before: Option<u64>) -> Option<Since>
    ensures { result ≡ since_put millis before }
{
    match before {
        Some(count) => Some(Since { count, millis }),
        None => None,
    }
}

/// Appends up to which position the outputs of a port were put, if a sink is for it.
fn push_out(
    text: &mut String,
    port: usize,
    now: Option<u64>,
    since: Option<Since>,
) -> Result<(), AllocError>
    ensures { OnOk result (string_bytes text.new ≡ string_bytes text.old ++ out_part port now since) }
{
    match now {
        Some(position) => {
            write!(text, " out {port} ")?;
            push_count(text, position, since)
        }
        None => Ok(()),
    }
}

/// Appends that for each port.
fn push_outs(
    text: &mut String,
    put: &[Option<u64>],
    before: &[Option<u64>],
    millis: u64,
) -> Result<(), AllocError>
    ensures { OnOk result (string_bytes text.new ≡ string_bytes text.old ++ out_parts 0 millis before.now put.now) }
{
    for (port, position) in put.iter().enumerate() {
        push_out(
            text,
            port,
            *position,
            since_put(millis, put_before(before, port)),
        )?;
    }
    Ok(())
}

/// Appends the line, without its end.
fn push_line(text: &mut String, line: &Line) -> Result<(), AllocError>
    ensures { OnOk result (string_bytes text.new ≡ string_bytes text.old ++ line_text line.now) }
{
    push_front(text, line)?;
    push_turns(text, line)?;
    push_outs(text, &line.told.put, &line.before.put, line.millis)
}

/// Gives the line, without its end.
pub(crate) fn text_of(alloc: Global, line: &Line) -> Result<String, AllocError>
    ensures { IfOk result (λ text. string_bytes text ≡ line_text line.now) }
{
    let mut text = String::new(alloc);
    push_line(&mut text, line)?;
    Ok(text)
}
