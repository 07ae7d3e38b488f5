//! Bytes of a device that are read before they are needed.

ghost use Rattle.std.specs.Prelude.{◌≡◌, length};
ghost use Rattle.tp_recover.specs.declared.reading.window.TheConstants.{WINDOW_BYTES};

/// The most bytes that are read at once.
pub(crate) const WINDOW_BYTES: usize = 0x1_0000;

/// The bytes of a device from a place on, as far as they were read: the first `count` of `bytes`. They have memory of their own, since a
/// limited stack may have no room for them.
#[derive(Drop)]
pub(crate) struct Window {
    pub(crate) from: u64,
    pub(crate) count: usize,
    pub(crate) bytes: Vec<u8>,
    ghost whole: { length bytes.items ≡ WINDOW_BYTES },
}
