//! The images that a device may be formatted with.

ghost use Rattle.std.specs.Prelude.{map};
ghost use Rattle.tp_model.specs.Format.{fresh_node, fresh_nodes};
ghost use Rattle.tp_area.specs.Formatting.{Checks};

use crate::fault::FormatFault;
use std::alloc::Global;
use tp_node::{ImageFault, Node, has_idle_links};

/// Tests that `image` is that of a node with `pages` pages whose links are idle.
fn check_image(alloc: Global, pages: u16, image: &[u8]) -> Result<(), FormatFault>
    ensures { Checks (fresh_node pages image.now) result }
{
    let node = match Node::from_image(alloc, image, 0) {
        Ok(node) => node,
        Err(ImageFault::BadImage) => return Err(FormatFault::BadImage),
        Err(ImageFault::Memory) => return Err(FormatFault::Memory),
    };
    let count = node.pages();
    if count != usize::from(pages) {
        return Err(FormatFault::BadImage);
    }
    if !has_idle_links(image) {
        return Err(FormatFault::BadImage);
    }
    Ok(())
}

/// Tests that there is one such image for each node.
pub(crate) fn check_images(
    alloc: Global,
    pages: &[u16],
    images: &[Vec<u8>],
) -> Result<(), FormatFault>
    ensures { Checks (fresh_nodes pages.now (map (λ image. image.items) images.now)) result }
{
    if pages.len() != images.len() {
        return Err(FormatFault::BadImage);
    }
    for (i, image) in images.iter().enumerate() {
        check_image(alloc, pages[i], image)?;
    }
    Ok(())
}
