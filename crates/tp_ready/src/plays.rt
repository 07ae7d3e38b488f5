//! The rule of the word, and what each step on it tells. Its types are only for the proofs.
ghost use Rattle.std.specs.Prelude.{◌≡◌, ℕ, []};
ghost use Rattle.tp_ready.specs.MarkView.{raiser, reader, Marks, Loaded, Audited, Raised, informed};

use crate::mark_view::View;
use atomic_table::{Join, Play, Seat, Split, Table, TableRule};
use std::alloc::Global;
use std::marker::{Brand, PhantomData};

/// One word, whose first number is the key.
pub type Word = Table<(), View, u64, Rising, Global>;

pub type Place = Seat<(), View>;

pub struct Rising;

impl TableRule<(), View, u64> for Rising {
    ghost holds = { λ first s. Marks s.words s.views };

    ghost first = { raiser };
}

/// A load by a pass.
pub struct Loads;

impl Play<(), View> for Loads {
    ghost then = { λ step me found now. Loaded me.0 found now.0 × (now.1 ≡ me.1) };
}

/// A load by the raiser.
pub struct Audits;

impl Play<(), View> for Audits {
    ghost then = { λ step me found now. Audited me.0 found now.0 × (now.1 ≡ me.1) };
}

/// The number of a device's moment.
pub trait Dated {
    ghost moment: { ℕ };
}

/// It is picked at each call.
impl Dated for Brand {
    ghost moment = { 0 };
}

/// A rise at a moment of the device.
pub struct Raises<A: Dated> {
    at: PhantomData<A>,
}

impl<A: Dated> Play<(), View> for Raises<A> {
    ghost then = { λ step me found now. Raised A.moment step.first me.0 found now.0 × (now.1 ≡ me.1) };
}

/// A reader that has seen as much.
pub struct Twin;

impl Split<View> for Twin {
    ghost left = { λ v. v };

    ghost right = { λ v. reader v.at v.rises };
}

/// A reader is told what another one saw.
pub struct Tells;

impl Join<View> for Tells {
    ghost both = { λ v w. informed v w.at w.rises };

    ghost spent = { reader 0 [] };
}
