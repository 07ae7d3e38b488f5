//! The flusher drops the frozen pages of a node.

ghost use Rattle.std.specs.Prelude.{◌≡◌, ◌<◌, true, length, get_or};
ghost use Rattle.tp_flush.specs.Lower.{AreTrue, Resting, content_beside};
ghost use Rattle.tp_flush.specs.Copying.{HasRecorded, IsPartOut};
ghost use Rattle.tp_flush.specs.Progress.{is_out, with_out};
ghost use Rattle.tp_flush.specs.Flushing.{FlushedOn};
ghost use Rattle.tp_flush.specs.Ends.{NothingStored};

use crate::flusher::Flusher;
use std::sync::Wait;
use tp_disk::Disk;
use tp_shared::{Naming, Shared};

impl<J: Naming, D: Disk> Flusher<J, D> {
    /// Drops the frozen pages of `node`, which has recorded. The head and all pages of its frozen image are in the other area: its image is
    /// out. A node whose image is out has no kept pages.
    pub(crate) fn let_go<R: Wait>(&mut self, rt: &R, shared: &Shared<J>, node: u8)
        requires rests { self.old.world.at ≡ Resting }
        requires node { node < length self.old.topology.pages }
        requires there { node < length J.start.nodes }
        requires stands { AreTrue self.old.reads → IsPartOut self.old.topology self.old.world.net (content_beside self.old.place self.old.state) node (get_or self.old.topology.pages node 0) }
        requires recorded { HasRecorded self.old.world.net node }
        ensures went { NothingStored self.old self.new }
        ensures out { self.new.progress ≡ with_out self.old.progress node }
        ensures is { is_out self.new.progress node ≡ true }
        ensures goes { FlushedOn J.formatted J.before self.old self.new }
    {
        self.drop_pages(rt, shared, node);
        self.put_out(node as usize);
    }
}
