//! The places of images and their pieces, without a sum over the images before.

ghost use Rattle.std.specs.Prelude.{◌≡◌, ◌+◌, ◌^◌, ◌<◌, ◌≤◌, length};
ghost use Rattle.tp_flush.specs.Lower.{MAX_PAGES, piece_place, place_in_image};

use crate::flusher::Flusher;
use tp_area::image_length;
use tp_disk::Disk;
use tp_model::limits::{IMAGE_HEAD_BYTES, PAGE_BYTES};
use tp_shared::Naming;

/// Gives the place of a piece in its image: piece 0 is the image's head, pieces from 1 on are its pages.
pub(crate) fn place_in_image(piece: usize) -> u64
    requires { piece ≤ MAX_PAGES }
    ensures value { result ≡ place_in_image piece }
    ensures bound { result < 2 ^ 20 }
{
    if piece == 0 {
        0
    } else {
        (IMAGE_HEAD_BYTES + PAGE_BYTES * (piece - 1)) as u64
    }
}

impl<J: Naming, D: Disk> Flusher<J, D> {
    /// Gives the place of the image after that of `node`, which begins at `image`.
    pub(crate) fn image_behind(&self, node: usize, image: u64) -> u64
        requires node { node < length self.now.topology.pages }
        requires image { image ≡ piece_place self.now.topology node 0 }
        ensures { result ≡ piece_place self.now.topology (node + 1) 0 }
    {
        image + image_length(self.parts.topology.pages()[node]) as u64
    }
}
