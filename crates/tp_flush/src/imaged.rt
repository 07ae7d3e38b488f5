//! What a turn of the flusher did with frozen images.

ghost use Rattle.std.specs.Prelude.{◌≡◌, IfErr, IfOk};
ghost use Rattle.tp_flush.specs.Images.{EndsSo, HasNextImage};

/// What a turn did with the frozen images of the snapshot that runs.
#[derive(Clone, Copy)]
pub enum Images {
    /// No snapshot ran.
    NoSnapshot,
    /// The image of each node that had recorded is out.
    Out,
    /// The last page of an image was enough for this turn. The next one goes on.
    Enough,
    /// This node had recorded, and not all its pages were kept. Its image isn't out.
    Unkept(u8),
}

/// What it did with the image of one node.
#[derive(Clone, Copy)]
pub(crate) enum Image {
    /// The image was out before.
    WasOut,
    /// The node hadn't recorded.
    Unrecorded,
    /// It had, and not all its pages were kept.
    Lacking,
    /// The image is out now; it has this number of pages.
    Copied(usize),
}

impl Image {
    /// Tells how many pages a turn may still copy after this image of `node`, which began with `left`; or how the turn ends with it.
    pub(crate) fn left(self, node: u8, left: usize) -> Result<usize, Images>
        ensures goes_on { IfOk result (λ rest. HasNextImage self) }
        ensures ends { IfErr result (λ images. EndsSo self node images) }
    {
        match self {
            Image::WasOut | Image::Unrecorded => Ok(left),
            Image::Lacking => Err(Images::Unkept(node)),
            Image::Copied(pages) => {
                if left <= pages {
                    Err(Images::Enough)
                } else {
                    Ok(left - pages)
                }
            }
        }
    }
}
