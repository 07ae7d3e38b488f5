//! The right to take a number.
ghost use Rattle.std.specs.Prelude.{◌≡◌};

use crate::rule::Port;
use std::marker::Model;

/// Takes one number at a time. Contracts see its queue, or `None` while it has a number, and what it has seen and called.
#[derive(Drop)]
pub struct Hand {
    pub(crate) port: Option<Port>,
}

impl Model for Hand {
    ghost use Rattle.std.specs.Prelude.{[], IfSome, option_map};
    ghost use Rattle.tp_ready.specs.Numbers.{HandValue};
    ghost use Rattle.tp_ready.specs.Holding.{numbers_held, past_in, HoldsNumbers};

    ghost Value = { HandValue };

    ghost view = { λ h. record { of = option_map numbers_held h.port; past = past_in h.port } };

    ghost invariant = { λ h. IfSome h.port (HoldsNumbers []) };
}
