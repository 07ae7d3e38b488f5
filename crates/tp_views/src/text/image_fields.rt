//! The fields of a node's image, except for its processor.

ghost use Rattle.std.specs.Prelude.{◌≡◌, ◌<◌, ◌^◌, ◌==◌, if◌then◌else◌, drop};
ghost use Rattle.tp_views.specs.Lower.{u8_at, ends_at, in_end_at, out_end_at, transfer_at, page_count, IMAGE_HEAD_BYTES};

use tp_model::limits::{IMAGE_HEAD_BYTES, PAGE_BYTES};
use tp_model::{InEnd, OutEnd, Transfer};
use tp_node::image_places::{
    END_BYTES, INPUTS_PLACE, LEFT_PLACE, OUTPUTS_PLACE, POINTER_PLACE, PROCESS_PLACE,
};
use tp_trace::{byte_in, word_in};

/// How many pages the memory of a node has.
pub(crate) fn pages_in(image: &[u8]) -> usize
    ensures { result ≡ page_count (drop IMAGE_HEAD_BYTES image.now) }
{
    image.len().saturating_sub(IMAGE_HEAD_BYTES) / PAGE_BYTES
}

fn transfer_in(image: &[u8], at: usize) -> Transfer
    requires { at < 2 ^ 16 }
    ensures { result ≡ transfer_at (drop at image.now) }
{
    Transfer {
        process: word_in(image, at + PROCESS_PLACE),
        pointer: word_in(image, at + POINTER_PLACE),
        left: word_in(image, at + LEFT_PLACE),
    }
}

fn output_in(image: &[u8], at: usize) -> OutEnd
    requires { at < 2 ^ 16 }
    ensures { result ≡ out_end_at (drop at image.now) }
{
    if byte_in(image, at) == 0 {
        OutEnd::Idle
    } else {
        OutEnd::Waits(transfer_in(image, at))
    }
}

/// Gives the byte that an input end holds; `None` if it holds none.
fn held_in(image: &[u8], at: usize) -> Option<u8>
    requires { at < 2 ^ 16 }
    ensures { result ≡ (if u8_at (drop at image.now) 1 == 0 then None else Some (u8_at (drop at image.now) 2)) }
{
    if byte_in(image, at + 1) == 0 {
        None
    } else {
        Some(byte_in(image, at + 2))
    }
}

fn input_in(image: &[u8], at: usize) -> InEnd
    requires { at < 2 ^ 16 }
    ensures { result ≡ in_end_at (drop at image.now) }
{
    let state = byte_in(image, at);
    if state == 0 {
        InEnd::Idle(held_in(image, at))
    } else if state == 1 {
        InEnd::Inputs(transfer_in(image, at))
    } else {
        InEnd::Enabled(word_in(image, at + PROCESS_PLACE))
    }
}

/// Gives the output ends of links 0 to 3.
pub(crate) fn outputs_in(image: &[u8]) -> [OutEnd; 4]
    ensures { result ≡ ends_at out_end_at 4 (drop 44 image.now) }
{
    [
        output_in(image, OUTPUTS_PLACE),
        output_in(image, OUTPUTS_PLACE + END_BYTES),
        output_in(image, OUTPUTS_PLACE + 2 * END_BYTES),
        output_in(image, OUTPUTS_PLACE + 3 * END_BYTES),
    ]
}

/// Gives the input ends of links 0 to 3.
pub(crate) fn inputs_in(image: &[u8]) -> [InEnd; 4]
    ensures { result ≡ ends_at in_end_at 4 (drop 108 image.now) }
{
    [
        input_in(image, INPUTS_PLACE),
        input_in(image, INPUTS_PLACE + END_BYTES),
        input_in(image, INPUTS_PLACE + 2 * END_BYTES),
        input_in(image, INPUTS_PLACE + 3 * END_BYTES),
    ]
}
