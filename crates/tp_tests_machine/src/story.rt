//! Stories: what a node is given, and what then happens to it.

use crate::bench::Bench;
use crate::image::{Fact, START};
use std::alloc::Global;
use std::process::Abort;
use tp_model::Token;
use tp_node::Why;

/// One thing that happens to a node, or is checked.
pub enum Event<'a> {
    /// It makes all the steps that it is to run for, and sends the tokens.
    Run(u16, &'a [(u8, Token)]),
    /// It has no step.
    Rests(Why),
    /// It takes a token on a link, and answers.
    Take(u8, Token, Option<Token>),
    /// It can't take a token on a link.
    Refuses(u8, Token),
    /// The test changes the facts in it.
    Also(&'a [Fact<'a>]),
    /// Since the node was last looked at, the facts have changed and nothing else.
    Then(&'a [Fact<'a>]),
}

/// A node that is about to run a program, but for some facts, and what happens to it.
pub struct Story<'a> {
    pub name: &'a str,
    pub code: &'a [u8],
    pub given: &'a [Fact<'a>],
    pub events: &'a [Event<'a>],
}

/// Ends the test if a row of a table isn't as told.
pub fn check(rt: &impl Abort, name: &str, row: usize, told: bool) {
    assert!(rt; told, "{name}, row {row}");
}

/// Whether an event is as told.
fn happens(bench: &mut Bench, event: &Event<'_>) -> bool {
    match event {
        Event::Run(steps, sent) => bench.runs(*steps, sent),
        Event::Rests(why) => bench.rests(*why),
        Event::Take(link, token, answer) => bench.takes(*link, *token, *answer),
        Event::Refuses(link, token) => bench.refuses(*link, *token),
        Event::Also(given) => bench.also(given),
        Event::Then(changed) => bench.is(changed),
    }
}

/// The first of `events` that isn't as told.
fn first_other(bench: &mut Bench, events: &[Event<'_>]) -> Option<usize> {
    for i in 0..events.len() {
        if !happens(bench, &events[i]) {
            return Some(i);
        }
    }
    None
}

/// The first event of a story that isn't as told.
fn play(alloc: Global, story: &Story<'_>) -> Option<usize> {
    let Some(mut bench) = Bench::new(alloc, story.code, story.given) else {
        return Some(0);
    };
    let other = first_other(&mut bench, story.events);
    other
}

/// Plays each story.
pub fn play_all(rt: &impl Abort, alloc: Global, stories: &[Story<'_>]) {
    for story in stories {
        let other = play(alloc, story);
        check(rt, story.name, other.unwrap_or(0), other.is_none());
    }
}

/// An instruction's bytes, what is given, and what then has changed. If that is the halt code, nothing else has; else so have the
/// place of the next instruction and the slice count.
pub type Row<'a> = (&'a [u8], &'a [Fact<'a>], &'a [Fact<'a>]);

/// Whether one step of a low process, after which the next instruction is at `next`, changes what it is to.
fn is_step(bench: &mut Bench, next: u32, then: &[Fact<'_>]) -> bool {
    let ran = bench.runs(1, &[]);
    if let [Fact::Halt(_)] = then {
        return ran && bench.is(then) && bench.rests(Why::Halted);
    }
    bench.expect(&[Fact::Iptr(next), Fact::Slice(1)]);
    ran && bench.is(then)
}

/// Whether one step of a low process is as the row says.
fn is_row(alloc: Global, row: &Row<'_>) -> bool {
    let (code, given, then) = *row;
    let Some(mut bench) = Bench::new(alloc, code, given) else {
        return false;
    };
    let next = START.wrapping_add(u32::try_from(code.len()).unwrap_or(0));
    let told = is_step(&mut bench, next, then);
    told
}

/// Makes the step of each row of a table.
pub fn check_rows(rt: &impl Abort, alloc: Global, name: &str, rows: &[Row<'_>]) {
    for (i, row) in rows.iter().enumerate() {
        check(rt, name, i, is_row(alloc, row));
    }
}
