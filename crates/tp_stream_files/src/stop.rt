//! Asking a stream to stop.

ghost use Rattle.std.specs.Prelude.{◌≡◌, Bool, List, [], ◌∷◌, ◌++◌};
ghost use Rattle.std.specs.Borrow.{ftrue};

use std::marker::Model;

/// Says whether a stream is asked to stop.
pub trait Stop {
    /// What it has answered, the oldest first.
    ghost answers: { Self → List Bool };

    /// Whether the stream is asked to stop. It checks anew each time.
    fn is_asked(&mut self) -> bool
        ensures { answers self.new ≡ answers self.old ++ result ∷ [] };
}

/// A list of answers that takes no bytes. Contracts see it, and code can't read it.
#[derive(Drop)]
pub struct Noted {
    pub ghost told: { List Bool },
}

impl Model for Noted {
    ghost also_owns = { λ _. ftrue };
}

impl Noted {
    /// Gives the ghost value `told`, for which a contract uses `_value`. It does nothing.
    pub(crate) fn of<T>(_value: &T) -> Noted
        ghost told: { List Bool }
        ensures { result.told ≡ told }
    {
        Noted {}
    }

    /// Begins with no answers.
    pub fn new() -> Noted
        ensures { result.told ≡ [] }
    {
        Noted::of(&())
    }

    /// Notes that an answer was given.
    pub fn answered(&self, answer: bool) -> Noted
        ensures { result.told ≡ self.now.told ++ answer ∷ [] }
    {
        Noted::of(&(self, answer))
    }
}
