//! What an area begins with: its gate, its generation, the length of its cut image, the number of entries in the cut, and its form.

ghost use Rattle.std.specs.Prelude.{◌≡◌, ◌≤◌, ◌<◌, ◌++◌, drop, length, IfOk};
ghost use Rattle.tp_area.specs.Lower.{cut_length, Topology};
ghost use Rattle.tp_area.specs.Fronts.{area_front, fields_bytes, front_given};

use crate::encoding::form::{base_number, form_at};
use byteorder::{ByteOrder, LittleEndian};
use tp_model::limits::{AREA_HEAD_BYTES, BASE_BYTES, GATE_OPEN, NUMBER_LIMIT};
use tp_model::number::{u32_at, u64_at};
use tp_model::{Form, OpenFault};

/// Where the length of the cut image is after an area's gate, and where its base is, with the form of the area.
const LENGTH_PLACE: usize = 8;

const BASE_PLACE: usize = AREA_HEAD_BYTES - 1;

/// Bytes of an area's gate and its generation, by which opening chooses an area.
pub const AREA_FRONT_BYTES: usize = 1 + LENGTH_PLACE;

/// Bytes of the fields between an area's gate and its node images.
pub const FIELDS_BYTES: usize = BASE_PLACE + BASE_BYTES;

/// Whether an area's gate is open, and its generation.
#[derive(Clone, Copy, PartialEq, Eq)]
pub struct AreaFront {
    pub is_open: bool,
    pub generation: u64,
}

/// The generation of an area, its form, and the number of entries in its cut.
#[derive(Clone, Copy)]
pub struct CutFront {
    pub generation: u64,
    pub form: Form,
    pub base: u64,
}

/// Reads the gate and the generation of the area that begins with `bytes`.
pub fn area_front(bytes: &[u8]) -> AreaFront
    requires { AREA_FRONT_BYTES ≤ length bytes.now }
    ensures { result ≡ area_front 0 bytes.now }
{
    AreaFront {
        is_open: bytes[0] == GATE_OPEN,
        generation: u64_at(bytes, 1),
    }
}

/// Reads the fields at the front of `bytes`, which follow the gate of an area that begins at `at` and whose cut image has to have `wanted`
/// bytes. `Damaged` with `at` if they break a rule.
pub fn cut_front(bytes: &[u8], wanted: u64, at: u64) -> Result<CutFront, OpenFault>
    requires { FIELDS_BYTES ≤ length bytes.now }
    ensures is { (t : Topology) → wanted ≡ cut_length t → result ≡ front_given t at bytes.now }
    ensures few { IfOk result (λ front. front.base < NUMBER_LIMIT) }
{
    let generation = u64_at(bytes, 0);
    let field = u64_at(bytes, BASE_PLACE);
    let is_wanted = u64::from(u32_at(bytes, LENGTH_PLACE)) == wanted;
    let Some(form) = form_at(field / NUMBER_LIMIT) else {
        return Err(OpenFault::Damaged(at));
    };
    if is_wanted && generation < NUMBER_LIMIT {
        let base = field % NUMBER_LIMIT;
        Ok(CutFront {
            generation,
            form,
            base,
        })
    } else {
        Err(OpenFault::Damaged(at))
    }
}

/// Writes the fields between an area's gate and its node images to the front of `out`, with a cut image of `cut` bytes.
pub fn put_fields(front: CutFront, cut: u32, out: &mut [u8])
    requires room { FIELDS_BYTES ≤ length out.old }
    requires base { front.base < NUMBER_LIMIT }
    ensures { out.new ≡ fields_bytes front.generation cut front.form front.base ++ drop FIELDS_BYTES out.old }
{
    LittleEndian::write_u64(out, front.generation);
    LittleEndian::write_u32(&mut out[LENGTH_PLACE..], cut);
    LittleEndian::write_u64(&mut out[BASE_PLACE..], base_number(front.form, front.base));
}
