//! What lines depend on besides the stream: the time, and whether they go to a terminal.

ghost use Rattle.std.specs.Prelude.{◌≡◌, ℕ, Bool, List, [], ◌∷◌, ◌++◌, Option};
ghost use Rattle.std.specs.Borrow.{ftrue};

use std::marker::Model;

/// Who reads what is said of a stream. It knows the time, and what is a terminal.
pub trait Onlooker {
    /// The times that it said, the oldest first; `None` if it said none.
    ghost times: { Self → List (Option ℕ) };

    /// Whether what is said goes to a terminal, and standard output, too.
    ghost terminal: { Self → Bool };

    ghost output_terminal: { Self → Bool };

    /// How many milliseconds have passed since some fixed moment. The answer is `None` while what was said before isn't written yet, so that a line
    /// that can be left out isn't said then. It checks anew each time.
    fn now(&mut self) -> Option<u64>
        ensures { times self.new ≡ times self.old ++ result ∷ [] };

    /// Whether what is said goes to a terminal, so that a line may be written over.
    fn is_terminal(&self) -> bool
        ensures { result ≡ terminal self.now };

    /// Whether standard output is a terminal. Then what a port puts there is mixed with what is said.
    fn is_output_terminal(&self) -> bool
        ensures { result ≡ output_terminal self.now };
}

/// A list of times that takes no bytes. Contracts see it, and code can't read it.
#[derive(Drop)]
pub struct Times {
    pub ghost told: { List (Option ℕ) },
}

impl Model for Times {
    ghost also_owns = { λ _. ftrue };
}

impl Times {
    /// Gives the ghost value `told`, for which a contract uses `_value`. It does nothing.
    pub(crate) fn of<T>(_value: &T) -> Times
        ghost told: { List (Option ℕ) }
        ensures { result.told ≡ told }
    {
        Times {}
    }

    /// Begins with no times.
    pub fn new() -> Times
        ensures { result.told ≡ [] }
    {
        Times::of(&())
    }

    /// Notes that a time was said, or none.
    pub fn answered(&self, now: Option<u64>) -> Times
        ensures { result.told ≡ self.now.told ++ now ∷ [] }
    {
        Times::of(&(self, now))
    }
}
