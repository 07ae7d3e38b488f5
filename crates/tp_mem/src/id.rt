//! The number of a frame that is held.

use std::marker::Model;

/// A frame that is held, by its number. Only a pool makes one, and it can't be copied.
#[derive(Drop)]
pub struct FrameId {
    number: u32,
}

impl Model for FrameId {
    ghost use Rattle.std.specs.Prelude.{ℕ};

    ghost Value = { ℕ };

    ghost view = { λ id. id.number };
}

impl FrameId {
    ghost use Rattle.std.specs.Prelude.{◌≡◌};

    pub(crate) fn new(number: u32) -> FrameId
        ensures { result ≡ number }
    {
        FrameId { number }
    }

    pub(crate) fn number(&self) -> u32
        ensures { result ≡ self.now }
    {
        self.number
    }
}
