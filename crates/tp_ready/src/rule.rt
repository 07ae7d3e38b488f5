//! The rule of the queue, and what each step tells. Its types are only for the proofs.
ghost use Rattle.std.specs.Prelude.{◌≡◌, ◌<◌, ◌+◌, [], ◌++◌, ◌∷◌, length, take, drop};
ghost use Rattle.tp_ready.specs.Past.{HasCalled};
ghost use Rattle.tp_ready.specs.View.{maker, holder, nobody, past_of, Dealt, AreDistinct, AreFew};
ghost use Rattle.tp_ready.specs.declared.call.Step.TheVariants.{Took, Put};

use crate::view::View;
use crossbeam_queue::protocol::{Join, Lesson, Outcome, Protocol, Split};
use crossbeam_queue::{Pass, RuledArrayQueue};

pub type Line = RuledArrayQueue<u8, View, Once>;

pub type Port = Pass<u8, View>;

/// Each number is in the queue or with one pass.
pub struct Once;

impl Protocol<u8, View> for Once {
    ghost holds = { Dealt };

    ghost first = { maker 0 0 };
}

/// A new number goes into the queue.
pub struct Makes;

impl Outcome<u8, View> for Makes {
    ghost then = { λ v x w. w ≡ maker (v.count + 1) v.hands };
}

impl Lesson<u8, View> for Makes {
    ghost fact = { AreFew };
}

/// A pass that is one hand gets a number from the queue.
pub struct Takes;

impl Outcome<u8, View> for Takes {
    ghost then = { λ v x w. (w ≡ holder v.count v.hands w.claims (v.held ++ x ∷ []) w.seen) × (length w.claims ≡ 1) × (x < v.count) × HasCalled v.count v.hands (Took x) (past_of v) (past_of w) };
}

impl Lesson<u8, View> for Takes {
    ghost fact = { AreFew };
}

/// The one number that a pass holds goes back.
pub struct PutsBack;

impl Outcome<u8, View> for PutsBack {
    ghost then = { λ v x w. (w ≡ holder v.count v.hands w.claims [] w.seen) × (length w.claims ≡ 1) × HasCalled v.count v.hands (Put x) (past_of v) (past_of w) };
}

impl Lesson<u8, View> for PutsBack {
    ghost fact = { AreFew };
}

/// A hand is made. The new pass belongs to nobody.
pub struct Grows;

impl Split<View> for Grows {
    ghost left = { λ v. maker v.count (v.hands + 1) };

    ghost right = { λ v. nobody };
}

/// A new pass is the first hand, and gets all that is held. It has seen what the old one has.
pub struct Gives;

impl Split<View> for Gives {
    ghost left = { λ v. holder v.count v.hands (drop 1 v.claims) [] v.seen };

    ghost right = { λ v. holder v.count v.hands (take 1 v.claims) v.held v.seen };
}

/// A new pass is the hand that the old one was, and gets what it held.
pub struct Lends;

impl Split<View> for Lends {
    ghost left = { λ v. holder v.count v.hands [] [] v.seen };

    ghost right = { λ v. holder v.count v.hands v.claims v.held v.seen };
}

/// A new pass is all hands but the first, and gets all that is held but the first number. The old one keeps these.
pub struct Parts;

impl Split<View> for Parts {
    ghost left = { λ v. holder v.count v.hands (take 1 v.claims) (take 1 v.held) v.seen };

    ghost right = { λ v. holder v.count v.hands (drop 1 v.claims) (drop 1 v.held) v.seen };
}

/// One pass is the hands that two were, and holds what they held.
pub struct Gathers;

impl Join<View> for Gathers {
    ghost both = { λ v w. holder v.count v.hands (v.claims ++ w.claims) (v.held ++ w.held) v.seen };

    ghost spent = { nobody };
}

/// No number is held twice.
pub struct Distinct;

impl Lesson<u8, View> for Distinct {
    ghost fact = { λ v items. AreDistinct v.held };
}
