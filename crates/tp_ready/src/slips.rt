//! Slips: what is in exactly one hand.

ghost use Rattle.std.specs.Prelude.{◌≡◌, ℕ, List, [], ◌++◌, take, drop};
ghost use Rattle.tp_ready.specs.Owned.{slips_own};
ghost use Rattle.tp_ready.specs.Sound.{AreApart};

use std::marker::{Model, PhantomData};

/// A bundle of slips of one roll. Each shows a number and the item that was written there. Nobody can copy it.
#[derive(Drop)]
pub struct Slips<T> {
    marker: PhantomData<T>,
    pub ghost name: { ℕ },
    pub ghost items: { List (ℕ × T) },
}

impl<T> Model for Slips<T> {
    ghost also_owns = { λ s. slips_own T.row.coded.code s.name s.items };
}

/// Makes a bundle without a slip, of the roll with the ghost name `of_roll`.
pub fn empty<T>() -> Slips<T>
    ghost of_roll: { ℕ }
    ensures name { result.name ≡ of_roll }
    ensures items { result.items ≡ [] }
{
    Slips {
        marker: PhantomData,
    }
}

// Deals the slips of both bundles again, in their order: `one` gets the first ones, as many as the ghost number `kept` says, which a caller
// may name by `_at`.
fn deal<T>(one: &mut Slips<T>, two: &mut Slips<T>, _at: u64)
    ghost kept: { ℕ }
    requires { one.old.name ≡ two.old.name }
    ensures names { (one.new.name ≡ one.old.name) × (two.new.name ≡ two.old.name) }
    ensures one { one.new.items ≡ take kept (one.old.items ++ two.old.items) }
    ensures two { two.new.items ≡ drop kept (one.old.items ++ two.old.items) }
    ensures apart { AreApart one.old.items two.old.items }
{}

/// Moves all slips of `from` to the end of `to`.
pub fn transfer<T>(to: &mut Slips<T>, from: &mut Slips<T>)
    requires { to.old.name ≡ from.old.name }
    ensures names { (to.new.name ≡ to.old.name) × (from.new.name ≡ from.old.name) }
    ensures to { to.new.items ≡ to.old.items ++ from.old.items }
    ensures from { from.new.items ≡ [] }
{
    deal(to, from, 0)
}

unsafe impl<T> Send for Slips<T> {}
