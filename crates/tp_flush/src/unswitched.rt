//! Why the store didn't switch.

/// Why a turn in which a snapshot ran didn't switch the store to its other area.
#[derive(Clone, Copy)]
pub enum Unswitched {
    /// The image of a node isn't out.
    ImageMissing,
    /// No generation is left.
    LastGeneration,
    /// The cut wasn't whole.
    CutOpen,
    /// The cut was whole, and pages of a node were kept.
    PagesKept,
}
