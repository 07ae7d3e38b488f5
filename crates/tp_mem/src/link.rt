//! The link in a free frame: its first four bytes are the number of the next free one.

ghost use Rattle.std.specs.Prelude.{◌≡◌, length};
ghost use Rattle.tp_mem.specs.FreeList.{next_in};

use crate::region::Frame;

/// Reads the number of the next free frame.
pub(crate) fn next(frame: &Frame) -> u32
    ensures value { result ≡ next_in frame.now }
    ensures len { length frame.now ≡ 1024 }
{
    u32::from_le_bytes([frame[0], frame[1], frame[2], frame[3]])
}

/// Makes a frame that leads to `number`.
pub(crate) fn to(number: u32) -> Frame
    ensures value { next_in result ≡ number }
    ensures len { length result ≡ 1024 }
{
    let mut frame = [0; 1024];
    let bytes = number.to_le_bytes();
    frame[0] = bytes[0];
    frame[1] = bytes[1];
    frame[2] = bytes[2];
    frame[3] = bytes[3];
    frame
}

/// Gives the frame; its contract says how long it is.
pub(crate) fn sized(frame: &Frame) -> &Frame
    ensures same { result.now ≡ frame.now }
    ensures len { length frame.now ≡ 1024 }
{
    frame
}
