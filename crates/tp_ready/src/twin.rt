//! Twins: one value in two places.

ghost use Rattle.std.specs.Prelude.{◌≡◌, ℕ};
ghost use Rattle.tp_ready.specs.Owned.{seal_owns, key_owns};

use std::marker::{Model, PhantomData};

/// One half of a twin. It shows `value`, as does the key of its name. Nobody can copy it.
#[derive(Drop)]
pub struct Seal<T> {
    marker: PhantomData<T>,
    pub ghost name: { ℕ },
    pub ghost value: { T },
}

impl<T> Model for Seal<T> {
    ghost also_owns = { λ s. seal_owns T.row.coded.code s.name s.value };
}

/// The other half of a twin. It shows `value`, as does the seal of its name. Nobody can copy it.
#[derive(Drop)]
pub struct Key<T> {
    marker: PhantomData<T>,
    pub ghost name: { ℕ },
    pub ghost value: { T },
}

impl<T> Model for Key<T> {
    ghost also_owns = { λ k. key_owns T.row.coded.code k.name k.value };
}

/// Makes the two halves of a new twin. Both show the ghost value `first`.
pub fn pair<T>() -> (Seal<T>, Key<T>)
    ghost first: { T }
    ensures name { result.0.name ≡ result.1.name }
    ensures seal { result.0.value ≡ first }
    ensures key { result.1.value ≡ first }
{
    (
        Seal {
            marker: PhantomData,
        },
        Key {
            marker: PhantomData,
        },
    )
}

// Sets both halves of a twin to the ghost value `to`, which a contract names by what is lent as `_by`.
fn set<T, W>(seal: &mut Seal<T>, key: &mut Key<T>, _by: &W)
    ghost to: { T }
    requires { seal.old.name ≡ key.old.name }
    ensures names { (seal.new.name ≡ seal.old.name) × (key.new.name ≡ key.old.name) }
    ensures agreed { seal.old.value ≡ key.old.value }
    ensures seal { seal.new.value ≡ to }
    ensures key { key.new.value ≡ to }
{}

/// Turns both halves of a twin to `to`. They showed one value before.
pub fn turn<T>(seal: &mut Seal<T>, key: &mut Key<T>, to: &T)
    requires { seal.old.name ≡ key.old.name }
    ensures names { (seal.new.name ≡ seal.old.name) × (key.new.name ≡ key.old.name) }
    ensures agreed { seal.old.value ≡ key.old.value }
    ensures seal { seal.new.value ≡ to.now }
    ensures key { key.new.value ≡ to.now }
{
    set(seal, key, to)
}

/// Proves that the two halves of a twin show one value. It changes nothing.
pub fn agree<T>(seal: &mut Seal<T>, key: &mut Key<T>)
    requires { seal.old.name ≡ key.old.name }
    ensures names { (seal.new.name ≡ seal.old.name) × (key.new.name ≡ key.old.name) }
    ensures values { (seal.new.value ≡ seal.old.value) × (key.new.value ≡ key.old.value) }
    ensures agreed { seal.old.value ≡ key.old.value }
{
    set(seal, key, &())
}

unsafe impl<T> Send for Seal<T> {}

unsafe impl<T> Send for Key<T> {}
