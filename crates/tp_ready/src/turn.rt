//! A number that was taken.
ghost use Rattle.std.specs.Prelude.{◌≡◌};

use crate::rule::Port;
use std::marker::Model;

/// A number, which is with its holder and no longer in the queue. Nobody can copy it or let it go: it has to be put back.
pub struct Turn {
    pub(crate) number: u8,
    pub(crate) port: Port,
}

impl Model for Turn {
    ghost use Rattle.std.specs.Prelude.{◌∷◌, []};
    ghost use Rattle.tp_ready.specs.Numbers.{TurnValue};
    ghost use Rattle.tp_ready.specs.Holding.{numbers_held, past_at, HoldsNumbers};

    ghost Value = { TurnValue };

    ghost view = { λ t. record { of = numbers_held t.port; number = t.number; past = past_at t.port } };

    ghost invariant = { λ t. HoldsNumbers (t.number ∷ []) t.port };
}

impl Turn {
    pub fn number(&self) -> u8
        ensures { result ≡ self.now.number }
    {
        self.number
    }
}
