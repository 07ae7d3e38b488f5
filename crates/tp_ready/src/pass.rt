//! A reader of the mark.
ghost use Rattle.std.specs.Prelude.{◌≡◌};
ghost use Rattle.tp_ready.specs.Seen.{number_of};

use crate::plays::Place;
use std::marker::Model;

/// Loads the mark. What it sees never goes back. Nobody can copy it.
#[derive(Drop)]
pub struct Pass {
    pub(crate) seen: u64,
    pub(crate) place: Place,
}

impl Model for Pass {
    ghost use Rattle.std.specs.Prelude.{◌≡◌, false, []};
    ghost use Rattle.tp_ready.specs.Seen.{PassValue, number_of};

    ghost Value = { PassValue };

    ghost view = { λ p. record { mark = p.place.table_id; at = p.seen; least = p.place.me.0.least; rises = p.place.me.0.rises } };

    ghost invariant = { λ p. (p.place.me.0.raises ≡ false) × (p.place.me.0.at ≡ p.seen) × (p.place.me.1 ≡ []) × (p.seen ≡ number_of p.place.me.0.rises) };
}

impl Pass {
    /// Gives the number that its last load showed, or what the mark had when the pass was made: the last to which the mark was raised by
    /// then.
    pub fn seen(&self) -> u64
        ensures is { result ≡ self.now.at }
        ensures risen { result ≡ number_of self.now.rises }
    {
        self.seen
    }
}
