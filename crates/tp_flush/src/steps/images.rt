//! The flusher copies the frozen images of a snapshot, some pages in each hold of the locks.

ghost use Rattle.std.specs.Prelude.{◌≡◌, ◌+◌, ◌*◌, ◌<◌, ◌≤◌, ℕ, [], true, false, flat_map, length, get_or, IfOk};
ghost use Rattle.tp_flush.specs.Lower.{AreTrue, MAX_NODES, MAX_PAGES, PAGE_BYTES, Resting, content_beside, piece_place};
ghost use Rattle.tp_flush.specs.Copying.{HasRecorded, IsPartOut};
ghost use Rattle.tp_flush.specs.Progress.{is_out};
ghost use Rattle.tp_flush.specs.Flushing.{FlushedOn};
ghost use Rattle.tp_flush.specs.Images.{Imaged, NodeImaged, StayOut};
ghost use Rattle.tp_flush.specs.Ends.{Tried};
ghost use Rattle.tp_flush.specs.declared.steps.images.TheConstants.{PAGES_A_HOLD};

use crate::fault::FlushFault;
use crate::flusher::Flusher;
use crate::imaged::{Image, Images};
use crate::places::place_in_image;
use crate::turn::FLUSHER;
use std::sync::Wait;
use tp_area::FIELDS_BYTES;
use tp_disk::Disk;
use tp_model::limits::{IMAGE_HEAD_BYTES, MAX_PAGES, PAGE_BYTES};
use tp_shared::gate::PAGE_COPIED;
use tp_shared::{Gate, Look, Naming, Shared};

/// The most pages that are read in one hold of a node's lock. A turn of a node in that cell waits for all of them: for less than a
/// microsecond, while a turn of 1,024 steps takes four.
const PAGES_A_HOLD: usize = 4;

/// Gives the bytes of pages, one page after the other.
fn joined(pages: &[[u8; PAGE_BYTES]]) -> &[u8]
    ensures bytes { result.now ≡ flat_map (λ page. page) pages.now }
    ensures len { length result.now ≡ PAGE_BYTES * length pages.now }
    ensures each { (k : ℕ) → k < length pages.now → length (get_or pages.now k []) ≡ PAGE_BYTES }
{
    pages.as_flattened()
}

impl<J: Naming, D: Disk> Flusher<J, D> {
    /// Counts the pages of a node.
    fn pages_of(&self, node: usize) -> usize
        requires { node < length self.now.topology.pages }
        ensures is { result ≡ get_or self.now.topology.pages node 0 }
        ensures few { result ≤ MAX_PAGES }
    {
        self.parts.topology.pages()[node] as usize
    }

    /// Counts the nodes with images on the device.
    fn nodes(&self) -> usize
        ensures { result ≡ length self.now.topology.pages }
    {
        self.parts.topology.pages().len()
    }

    /// Whether the frozen image of `node` is out.
    fn is_out(&self, node: usize) -> bool
        requires { node < length self.now.topology.pages }
        ensures value { result ≡ is_out self.now.progress node }
        ensures few { node < MAX_NODES }
    {
        let _pages = self.parts.topology.pages();
        self.parts.progress.is_out(node)
    }

    /// Copies the head of a frozen image, which begins at `image` in the other area. False if the node isn't frozen.
    fn copy_head<R: Wait>(
        &mut self,
        rt: &R,
        shared: &Shared<J>,
        node: u8,
        image: u64,
    ) -> Result<bool, FlushFault>
        requires rests { self.old.world.at ≡ Resting }
        requires cleared { self.old.progress.cleared ≡ true }
        requires node { node < length self.old.topology.pages }
        requires image { image ≡ piece_place self.old.topology node 0 }
        requires there { node < length J.start.nodes }
        requires free { is_out self.old.progress node ≡ false }
        ensures tried { Tried result self.old self.new }
        ensures same { self.new.progress ≡ self.old.progress }
        ensures stands { AreTrue self.new.reads → IfOk result (λ found. found ≡ true → IsPartOut self.new.topology self.new.world.net (content_beside self.new.place self.new.state) node 0) }
        ensures recorded { IfOk result (λ found. found ≡ true → HasRecorded self.new.world.net node) }
        ensures goes { FlushedOn J.formatted J.before self.old self.new }
    {
        let mut head = [0; IMAGE_HEAD_BYTES];
        if !self.read_head(rt, shared, node, &mut head) {
            return Ok(false);
        }
        self.put(rt, shared, node as usize, image, 0, &head)?;
        Ok(true)
    }

    /// Copies pages of a frozen image, which begins at `image`, from the page `first` on, through `pages`: as many as that has room for.
    /// They are read in one hold of the node's lock, and put by one call of the device. False if the node isn't frozen, or has fewer.
    fn copy_pages<R: Wait, G: Gate>(
        &mut self,
        rt: &R,
        shared: &Shared<J>,
        gate: &G,
        node: u8,
        image: u64,
        first: usize,
        pages: &mut [[u8; PAGE_BYTES]],
    ) -> Result<bool, FlushFault>
        requires rests { self.old.world.at ≡ Resting }
        requires cleared { self.old.progress.cleared ≡ true }
        requires node { node < length self.old.topology.pages }
        requires image { image ≡ piece_place self.old.topology node 0 }
        requires there { node < length J.start.nodes }
        requires room { first + length pages.old ≤ get_or self.old.topology.pages node 0 }
        requires few { first + length pages.old ≤ MAX_PAGES }
        requires some { (0 < length pages.old) × (length pages.old ≤ PAGES_A_HOLD) }
        requires free { is_out self.old.progress node ≡ false }
        requires stands { AreTrue self.old.reads → IsPartOut self.old.topology self.old.world.net (content_beside self.old.place self.old.state) node first }
        ensures tried { Tried result self.old self.new }
        ensures same { self.new.progress ≡ self.old.progress }
        ensures stands { AreTrue self.new.reads → IfOk result (λ found. found ≡ true → IsPartOut self.new.topology self.new.world.net (content_beside self.new.place self.new.state) node (first + length pages.old)) }
        ensures goes { FlushedOn J.formatted J.before self.old self.new }
    {
        if self.read_pages(rt, shared, node, first, pages) < pages.len() {
            return Ok(false);
        }
        gate.at(FLUSHER, PAGE_COPIED);
        let inner = place_in_image(first + 1);
        self.put(rt, shared, node as usize, image, inner, joined(pages))?;
        Ok(true)
    }

    /// Copies a frozen image, which begins at `image`, through `pages`. False if the node isn't frozen.
    fn copy_image<R: Wait, G: Gate>(
        &mut self,
        rt: &R,
        shared: &Shared<J>,
        gate: &G,
        node: u8,
        image: u64,
        pages: &mut [[u8; PAGE_BYTES]; PAGES_A_HOLD],
    ) -> Result<bool, FlushFault>
        requires rests { self.old.world.at ≡ Resting }
        requires cleared { self.old.progress.cleared ≡ true }
        requires node { node < length self.old.topology.pages }
        requires image { image ≡ piece_place self.old.topology node 0 }
        requires there { node < length J.start.nodes }
        requires free { is_out self.old.progress node ≡ false }
        ensures tried { Tried result self.old self.new }
        ensures same { self.new.progress ≡ self.old.progress }
        ensures stands { AreTrue self.new.reads → IfOk result (λ found. found ≡ true → IsPartOut self.new.topology self.new.world.net (content_beside self.new.place self.new.state) node (get_or self.new.topology.pages node 0)) }
        ensures recorded { IfOk result (λ found. found ≡ true → HasRecorded self.new.world.net node) }
        ensures goes { FlushedOn J.formatted J.before self.old self.new }
    {
        if !self.copy_head(rt, shared, node, image)? {
            return Ok(false);
        }
        let count = self.pages_of(node as usize);
        let mut done = 0;
        while done < count {
            let next = (count - done).min(PAGES_A_HOLD);
            if !self.copy_pages(rt, shared, gate, node, image, done, &mut pages[..next])? {
                return Ok(false);
            }
            done += next;
        }
        Ok(true)
    }

    /// Copies the frozen image of a node, which begins at `image`, through `pages`, and drops its frozen pages after the last one. The node
    /// has recorded and its image isn't out yet.
    fn copy_node<R: Wait, G: Gate>(
        &mut self,
        rt: &R,
        shared: &Shared<J>,
        gate: &G,
        look: &Look,
        node: u8,
        image: u64,
        pages: &mut [[u8; PAGE_BYTES]; PAGES_A_HOLD],
    ) -> Result<Image, FlushFault>
        requires rests { self.old.world.at ≡ Resting }
        requires cleared { self.old.progress.cleared ≡ true }
        requires node { node < length self.old.topology.pages }
        requires image { image ≡ piece_place self.old.topology node 0 }
        requires there { node < length J.start.nodes }
        ensures tried { Tried result self.old self.new }
        ensures imaged { IfOk result (λ done. NodeImaged done (get_or look.now.recorded node false) node self.old.progress self.new.progress) }
        ensures stay { StayOut self.old.progress self.new.progress }
        ensures goes { FlushedOn J.formatted J.before self.old self.new }
    {
        self.known();
        if self.is_out(node as usize) {
            return Ok(Image::WasOut);
        }
        if !look.recorded[node as usize] {
            return Ok(Image::Unrecorded);
        }
        if !self.copy_image(rt, shared, gate, node, image, pages)? {
            return Ok(Image::Lacking);
        }
        self.let_go(rt, shared, node);
        Ok(Image::Copied(self.pages_of(node as usize)))
    }

    /// Lets a turn begin no further image once it has copied `pages` pages of frozen images; the next turn goes on. So what is journalled
    /// meanwhile doesn't wait for all of them. Without this call a turn copies all that it may.
    pub fn copy_at_most(&mut self, pages: usize)
        ensures { self.new ≡ self.old }
    {
        let Flusher { parts, .. } = self;
        parts.pages_a_turn = pages.max(1);
    }

    /// Copies the frozen images of all that have recorded, without waiting for the others, until enough pages were copied for a turn. Each
    /// image's place in the other area follows from the one before; so no page needs a sum over the images before.
    #[inline(never)]
    pub(crate) fn copy_images<R: Wait, G: Gate>(
        &mut self,
        rt: &R,
        shared: &Shared<J>,
        gate: &G,
        look: &Look,
    ) -> Result<Images, FlushFault>
        requires rests { self.old.world.at ≡ Resting }
        requires cleared { self.old.progress.cleared ≡ true }
        ensures tried { Tried result self.old self.new }
        ensures imaged { IfOk result (λ images. Imaged true (λ i. get_or look.now.recorded i false) (length J.start.nodes) (length self.new.topology.pages) images self.old.progress self.new.progress) }
        ensures goes { FlushedOn J.formatted J.before self.old self.new }
    {
        self.known();
        let count = self.nodes().min(shared.nodes() as usize);
        let mut image = FIELDS_BYTES as u64;
        let mut left = self.parts.pages_a_turn;
        let mut pages = [[0; PAGE_BYTES]; PAGES_A_HOLD];
        for node in 0..count {
            let done = self.copy_node(rt, shared, gate, look, node as u8, image, &mut pages)?;
            match done.left(node as u8, left) {
                Ok(rest) => left = rest,
                Err(images) => return Ok(images),
            }
            image = self.image_behind(node, image);
        }
        Ok(Images::Out)
    }
}
