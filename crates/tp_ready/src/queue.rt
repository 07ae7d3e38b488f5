//! The queue itself.
ghost use Rattle.std.specs.Prelude.{◌≡◌, ◌≢◌, ◌<◌, ◌+◌, [], vec_len, All, IfOk, IfSome, MatchOption, Some, None, ◌∷◌, ◌++◌, option_map, ⊤};
ghost use Rattle.crossbeam_queue.specs.Passes.{view, IsSamePass, IsPassOf, ruled_capacity};
ghost use Rattle.tp_ready.specs.Answered.{answer};
ghost use Rattle.tp_ready.specs.Past.{HasCalled, IsNew};
ghost use Rattle.tp_ready.specs.View.{maker};
ghost use Rattle.tp_ready.specs.declared.call.Step.TheVariants.{Took, Put};

use crate::answers::Answers;
use crate::hand::Hand;
use crate::rule::{
    Distinct, Gathers, Gives, Grows, Lends, Line, Makes, Parts, Port, PutsBack, Takes,
};
use crate::turn::Turn;
use std::alloc::{AllocError, Global};
use std::marker::Model;
use std::sync::Wait;

/// The numbers of processes that wait for their turn, the longest waiting first. Contracts see its name, how many numbers there are in
/// the queue and with holders, and how many hands.
#[derive(Drop)]
pub struct ReadyQueue {
    line: Line,
    hands: u8,
}

impl Model for ReadyQueue {
    ghost use Rattle.tp_ready.specs.Numbers.{Numbers};
    ghost use Rattle.crossbeam_queue.specs.Passes.{ruled_capacity};

    ghost Value = { Numbers };

    ghost view = { λ q. record { queue = q.line.table.shared.table_id; count = ruled_capacity q.line; hands = q.hands } };
}

impl ReadyQueue {
    /// Makes a queue of the numbers 0 to `last`, in order, and `hands` hands. `AllocError` if memory is out.
    pub fn start<R: Wait>(
        rt: &R,
        alloc: Global,
        last: u8,
        hands: u8,
    ) -> Result<(ReadyQueue, Vec<Hand>), AllocError>
        ensures queue { IfOk result (λ s. (s.0.count ≡ last + 1) × (s.0.hands ≡ hands)) }
        ensures count { IfOk result (λ s. vec_len s.1 ≡ hands) }
        ensures hands { IfOk result (λ s. All (λ hand. hand.of ≡ Some s.0) s.1.items) }
        ensures new { IfOk result (λ s. All (λ hand. IsNew hand.past) s.1.items) }
    {
        let (line, mut port) = Line::ruled(alloc, usize::from(last) + 1)?;
        fill(rt, &line, &mut port);
        reckon(&line, &mut port, hands);
        let mut all = Vec::new(alloc);
        for _ in 0..hands {
            let theirs = line.another::<Gives>(&mut port);
            all.push(Hand { port: Some(theirs) })?;
        }
        Ok((ReadyQueue { line, hands }, all))
    }

    /// Takes the number that waits longest: after all calls of all hands before this one it is first. `None` comes only if the queue was
    /// empty at some moment of the call, so that there are more hands than numbers. Then `hand` is free as before, and has called nothing.
    /// The answer is added to `answers`.
    #[inline(always)]
    pub fn take<R: Wait>(&self, rt: &R, hand: &mut Hand, answers: &mut Answers) -> Option<Turn>
        requires { hand.old.of ≡ Some self.now }
        ensures hand { MatchOption result ((hand.new.of ≡ Some self.now) × (hand.new.past ≡ hand.old.past)) (λ turn. hand.new.of ≡ None) }
        ensures turn { IfSome result (λ turn. (turn.of ≡ self.now) × (turn.number < self.now.count)) }
        ensures next { IfSome result (λ turn. HasCalled self.now.count self.now.hands (Took turn.number) hand.old.past turn.past) }
        ensures few { MatchOption result (self.now.count < self.now.hands) (λ turn. ⊤) }
        ensures answer { answers.new ≡ answers.old ++ answer self.now (option_map (λ turn. turn.number) result) ∷ [] }
    {
        let Some(mut port) = hand.port.take() else {
            unreachable!()
        };
        match self.line.pop_as::<Takes, R>(rt, &mut port) {
            Some(number) => {
                answers.add(self, Some(number));
                Some(Turn { number, port })
            }
            None => {
                answers.add(self, None);
                hand.port = Some(port);
                None
            }
        }
    }

    /// Puts the number of `turn` after all that wait, and frees `hand`.
    #[inline(always)]
    pub fn put_back<R: Wait>(&self, rt: &R, hand: &mut Hand, turn: Turn)
        requires hand { hand.old.of ≡ None }
        requires turn { turn.of ≡ self.now }
        ensures hand { hand.new.of ≡ Some self.now }
        ensures last { HasCalled self.now.count self.now.hands (Put turn.number) turn.past hand.new.past }
    {
        let Turn { number, mut port } = turn;
        let put = self.line.push_as::<PutsBack, R>(rt, &mut port, number);
        if put.is_err() {
            unreachable!()
        }
        hand.port = Some(port);
    }

    /// Proves that two turns have different numbers. It changes nothing.
    pub fn apart(&self, one: &mut Turn, two: &mut Turn)
        requires turns { (one.old.of ≡ self.now) × (two.old.of ≡ self.now) }
        ensures same { (one.new ≡ one.old) × (two.new ≡ two.old) }
        ensures apart { one.old.number ≢ two.old.number }
    {
        let theirs = self.line.another::<Lends>(&mut two.port);
        self.line.absorb::<Gathers>(&mut one.port, theirs);
        self.line.learn_as::<Distinct>(&mut one.port);
        let back = self.line.another::<Parts>(&mut one.port);
        self.line.absorb::<Gathers>(&mut two.port, back);
    }
}

// Makes as many numbers as `line` has room for.
fn fill<R: Wait>(rt: &R, line: &Line, port: &mut Port)
    requires line { IsPassOf line.now port.old × (ruled_capacity line.now < 257) }
    requires none { view port.old ≡ maker 0 0 }
    ensures { IsSamePass port.old port.new × (view port.new ≡ maker (ruled_capacity line.now) 0) }
{
    for number in 0..line.capacity() {
        make(rt, line, port, number as u8);
    }
}

fn make<R: Wait>(rt: &R, line: &Line, port: &mut Port, number: u8)
    requires line { IsPassOf line.now port.old × (number < ruled_capacity line.now) }
    requires made { view port.old ≡ maker number 0 }
    ensures { IsSamePass port.old port.new × (view port.new ≡ maker (number + 1) 0) }
{
    if line.push_as::<Makes, R>(rt, port, number).is_err() {
        unreachable!()
    }
}

// Makes as many hands as `hands` says.
fn reckon(line: &Line, port: &mut Port, hands: u8)
    requires line { IsPassOf line.now port.old }
    requires none { view port.old ≡ maker (ruled_capacity line.now) 0 }
    ensures { IsSamePass port.old port.new × (view port.new ≡ maker (ruled_capacity line.now) hands) }
{
    for _ in 0..hands {
        let _nobody = line.another::<Grows>(port);
    }
}
