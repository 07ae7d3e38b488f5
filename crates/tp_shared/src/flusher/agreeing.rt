//! What the flusher was told and what the host handed in, compared with the book as it is.

ghost use Rattle.std.specs.Prelude.{◌≡◌};
ghost use Rattle.tp_shared.specs.Accepted.{HaveAccepted};
ghost use Rattle.tp_shared.specs.HandedIn.{handed};
ghost use Rattle.tp_shared.specs.Told.{ToldSince, told_of};

use crate::book::locked::Locked;
use crate::flusher::told::Told;
use crate::host_key::HostKey;
use crate::naming::Naming;
use tp_ready::twin::{Key, agree};

impl<J: Naming> Locked<J> {
    /// Proves that acts, none of them a trim, lead from what the flusher was last told, which `key` shows, to the book as it is. It changes
    /// nothing.
    pub fn compare(&mut self, key: &mut Key<Told>)
        requires { key.old.name ≡ J.flusher }
        ensures same { (self.new ≡ self.old) × (key.new.name ≡ key.old.name) × (key.new.value ≡ key.old.value) }
        ensures since { ToldSince key.old.value (told_of J.before J.first self.old) }
    {
        agree(&mut self.told, key);
    }

    /// Proves that `host` shows all that was handed in since the opening. Each port has accepted that, after what it had accepted before. It
    /// changes nothing.
    pub fn compare_host(&mut self, host: &mut HostKey<J>)
        ensures same { (self.new ≡ self.old) × (host.new ≡ host.old) }
        ensures all { handed self.old.all ≡ host.old }
        ensures accepted { HaveAccepted J.accepted host.old self.old.book }
    {
        agree(&mut self.given, &mut host.key);
    }
}
