//! The generation of the open area.

ghost use Rattle.std.specs.Prelude.{◌≡◌};

use crate::flusher::Flusher;
use tp_disk::Disk;
use tp_shared::Naming;

impl<J: Naming, D: Disk> Flusher<J, D> {
    /// Gives the generation of the open area, to which groups are appended.
    pub fn generation(&self) -> u64
        ensures { result ≡ self.now.place.generation }
    {
        self.parts.store.place.generation
    }
}
