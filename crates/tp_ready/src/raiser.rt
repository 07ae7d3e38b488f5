//! The one holder that raises the mark.
ghost use Rattle.std.specs.Prelude.{◌≡◌};

use crate::plays::Place;
use std::marker::Model;

/// Raises the mark, and knows its number. A mark has one raiser.
#[derive(Drop)]
pub struct Raiser {
    pub(crate) raised: u64,
    pub(crate) place: Place,
}

impl Model for Raiser {
    ghost use Rattle.std.specs.Prelude.{◌≡◌, true, []};
    ghost use Rattle.tp_ready.specs.Seen.{RaiserValue, number_of};

    ghost Value = { RaiserValue };

    ghost view = { λ r. record { mark = r.place.table_id; at = r.raised; rises = r.place.me.0.rises } };

    ghost invariant = { λ r. (r.place.me.0.raises ≡ true) × (r.place.me.0.at ≡ r.raised) × (r.place.me.1 ≡ []) × (r.raised ≡ number_of r.place.me.0.rises) };
}

impl Raiser {
    /// Gives the mark's number.
    pub fn raised(&self) -> u64
        ensures { result ≡ self.now.at }
    {
        self.raised
    }
}
