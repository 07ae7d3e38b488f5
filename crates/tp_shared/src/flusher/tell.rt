//! The flusher is told of the book.

ghost use Rattle.std.specs.Prelude.{◌≡◌};
ghost use Rattle.tp_shared.specs.Told.{ToldSince, told_of};

use crate::book::locked::Locked;
use crate::flusher::told::Told;
use crate::naming::Naming;
use tp_ready::twin::{Key, turn};

impl<J: Naming> Locked<J> {
    /// Lets `key` show what is told of the book as it is.
    pub(crate) fn tell(&mut self, key: &mut Key<Told>)
        requires { key.old.name ≡ J.flusher }
        ensures same { self.new ≡ self.old }
        ensures key { (key.new.name ≡ key.old.name) × (key.new.value ≡ told_of J.before J.first self.old) }
        ensures since { ToldSince key.old.value key.new.value }
    {
        let now = Told::now(&*self);
        turn(&mut self.told, key, &now);
    }
}
