//! When more is said of what a command did.

ghost use Rattle.std.specs.Prelude.{◌≡◌};
ghost use Rattle.tp_words.specs.Explaining.{explaining_typed, more_said};

use crate::numbers::has_flag;

/// What was typed of explanations.
#[derive(Clone, Copy)]
pub enum Explaining {
    /// `--explain`.
    Always,
    /// `--no-explain`.
    Never,
    /// Neither: it depends on where standard error goes.
    OnTerminal,
}

/// What more is said on standard error after the lines of a command.
#[derive(Clone, Copy)]
pub struct More {
    /// Of a refusal: which file, why, and the way out.
    pub of_refusals: bool,
    /// Which nodes have halted, if all was done.
    pub of_halts: bool,
}

impl Explaining {
    /// What more is said, if standard error is a terminal or isn't: on a terminal refusals are explained, unless that was turned off.
    pub fn more(self, on_terminal: bool) -> More
        ensures { result ≡ more_said self on_terminal }
    {
        match self {
            Explaining::Always => More {
                of_refusals: true,
                of_halts: true,
            },
            Explaining::Never => More {
                of_refusals: false,
                of_halts: false,
            },
            Explaining::OnTerminal => More {
                of_refusals: on_terminal,
                of_halts: false,
            },
        }
    }
}

/// What was typed of explanations; `None`: both words were.
pub fn explaining_of(words: &[String]) -> Option<Explaining>
    ensures { result ≡ explaining_typed words.now }
{
    match (
        has_flag(words, "--explain"),
        has_flag(words, "--no-explain"),
    ) {
        (true, true) => None,
        (true, false) => Some(Explaining::Always),
        (false, true) => Some(Explaining::Never),
        (false, false) => Some(Explaining::OnTerminal),
    }
}
