//! What only contracts see of the flusher.

ghost use Rattle.std.specs.Prelude.{◌≡◌};
ghost use Rattle.std.specs.Borrow.{ftrue};
ghost use Rattle.tp_flush.specs.Known.{Known};

use std::marker::Model;

/// The world as the flusher knows it, and the bytes that this process opened. It has no bytes.
#[derive(Drop)]
pub struct Whole {
    pub ghost known: { Known },
}

impl Model for Whole {
    ghost also_owns = { λ _. ftrue };
}

// It has no bytes and owns nothing.
unsafe impl Send for Whole {}

impl Whole {
    ghost use Rattle.std.specs.Prelude.{◌≡◌};
    ghost use Rattle.tp_flush.specs.Known.{Known};

    // Gives the ghost value `known`, which a contract names by what is lent as `_value`. The function does nothing.
    pub(crate) fn of<T>(_value: &T) -> Whole
        ghost known: { Known }
        ensures { result.known ≡ known }
    {
        Whole {}
    }
}
