//! Whether the links of an image are idle.

ghost use Rattle.std.specs.Prelude.{◌≡◌, ◌+◌, ◌^◌, ◌<◌, drop, length};
ghost use Rattle.tp_node.specs.Lower.{list_all, u8_at, out_end_at, in_end_at, ends_at, is_idle_out, is_idle_in, node_at, has_idle_links};

use crate::image_places::{END_BYTES, INPUTS_PLACE, LINKS, OUTPUTS_PLACE};

/// Gives the byte of `image` at `at`; 0 after its end.
fn byte_at(image: &[u8], at: usize) -> u8
    ensures { result ≡ u8_at image.now at }
{
    image.get(at).copied().unwrap_or(0)
}

/// Whether the output end at this place is idle.
fn is_idle_out(image: &[u8], at: usize) -> bool
    ensures { result ≡ is_idle_out (out_end_at (drop at image.now)) }
{
    byte_at(image, at) == 0
}

/// Whether the input end at this place is idle and holds no byte.
fn is_idle_in(image: &[u8], at: usize) -> bool
    requires { at < 2 ^ 32 }
    ensures { result ≡ is_idle_in (in_end_at (drop at image.now)) }
{
    byte_at(image, at) == 0 && byte_at(image, at + 1) == 0
}

/// Whether the four output ends are idle.
fn are_idle_outs(image: &[u8]) -> bool
    ensures { result ≡ list_all is_idle_out (ends_at out_end_at 4 (drop 44 image.now)) }
{
    for link in 0..LINKS {
        if !is_idle_out(image, OUTPUTS_PLACE + END_BYTES * link) {
            return false;
        }
    }
    true
}

/// Whether the four input ends are idle and hold no byte.
fn are_idle_ins(image: &[u8]) -> bool
    ensures { result ≡ list_all is_idle_in (ends_at in_end_at 4 (drop 108 image.now)) }
{
    for link in 0..LINKS {
        if !is_idle_in(image, INPUTS_PLACE + END_BYTES * link) {
            return false;
        }
    }
    true
}

/// Whether all links of `image` are idle: without a message under way, a byte that is held, or a wait for one.
#[tactic(auto, unfolding(tp_model::specs::Image::node_at))]
pub fn has_idle_links(image: &[u8]) -> bool
    ensures { result ≡ has_idle_links (node_at image.now) }
{
    are_idle_outs(image) && are_idle_ins(image)
}
