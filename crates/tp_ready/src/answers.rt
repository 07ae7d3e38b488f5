//! What queues answered.
ghost use Rattle.std.specs.Prelude.{◌≡◌, List, [], ◌∷◌, ◌++◌};
ghost use Rattle.tp_ready.specs.Answered.{answer};
ghost use Rattle.tp_ready.specs.declared.answers.Answer.{Answer};

use crate::queue::ReadyQueue;
use crate::twin::{Seal, pair};
use std::collections::LinkedList;
use std::marker::Model;

/// What a queue answered: the number that it handed out, or `None` if it was empty. No value of it is made.
pub struct Answer {
    pub queue: ReadyQueue,
    pub number: Option<u8>,
}

/// All that queues answered to the holder of this, in order. It has no bytes, nobody can copy it, and only `take` adds to it.
#[derive(Drop)]
pub struct Answers {
    all: Seal<LinkedList<Answer>>,
}

impl Model for Answers {
    ghost use Rattle.std.specs.Prelude.{List};
    ghost use Rattle.tp_ready.specs.declared.answers.Answer.{Answer};

    ghost Value = { List Answer };

    ghost view = { λ a. a.all.value };
}

// Gives a seal that shows the ghost value `answers`, which a contract names by what is lent.
fn shown(_old: &Answers, _queue: &ReadyQueue, _number: Option<u8>) -> Seal<LinkedList<Answer>>
    ghost answers: { List Answer }
    ensures { result.value ≡ answers }
{
    let (all, _key) = pair::<LinkedList<Answer>>();
    all
}

impl Answers {
    /// Makes the list of no answers.
    pub fn new() -> Answers
        ensures { result ≡ [] }
    {
        let (all, _key) = pair::<LinkedList<Answer>>();
        Answers { all }
    }

    /// Adds an answer of `queue`.
    pub(crate) fn add(&mut self, queue: &ReadyQueue, number: Option<u8>)
        ensures { self.new ≡ self.old ++ answer queue.now number ∷ [] }
    {
        self.all = shown(&*self, queue, number);
    }
}
