//! The host's key: what the host has handed in, in the hand of one thread.

ghost use Rattle.std.specs.Prelude.{◌≡◌};

use crate::flusher::handed::Handed;
use crate::naming::Naming;
use std::marker::{Model, PhantomData};
use tp_ready::twin::Key;

/// The host's right to hand in bytes and to confirm outputs. A network has one, and nobody can copy it. Contracts see the entries of all
/// that was handed in since the opening, in order. It has no bytes.
#[derive(Drop)]
pub struct HostKey<J: Naming> {
    pub(crate) key: Key<Handed>,
    of: PhantomData<J>,
}

impl<J: Naming> Model for HostKey<J> {
    ghost use Rattle.std.specs.Prelude.{◌≡◌, List};
    ghost use Rattle.tp_model.specs.declared.entry.Entry.{Entry};

    ghost Value = { List Entry };

    ghost view = { λ k. k.key.value.entries };

    ghost invariant = { λ k. k.key.name ≡ J.host };
}

impl<J: Naming> HostKey<J> {
    pub(crate) fn over(key: Key<Handed>) -> HostKey<J>
        requires { key.name ≡ J.host }
        ensures { result ≡ key.value.entries }
    {
        HostKey {
            key,
            of: PhantomData,
        }
    }
}
