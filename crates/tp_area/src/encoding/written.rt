//! Records, as far as they are written.

ghost use Rattle.std.specs.Prelude.{◌≡◌, ◌+◌, ◌≤◌, ◌++◌, length};
ghost use Rattle.tp_area.specs.Lower.{array_vec_len, padded};

use arrayvec::ArrayVec;

/// Appends `bytes`.
pub(crate) fn put<const N: usize>(bytes: &[u8], out: &mut ArrayVec<u8, N>)
    requires { array_vec_len out.old + length bytes.now ≤ N }
    ensures bytes { out.new.items ≡ out.old.items ++ bytes.now }
    ensures len { array_vec_len out.new ≡ array_vec_len out.old + length bytes.now }
{
    for byte in bytes {
        out.push(*byte);
    }
}

/// Appends 00 up to the length `len`.
pub(crate) fn pad<const N: usize>(len: usize, out: &mut ArrayVec<u8, N>)
    requires room { len ≤ N }
    requires behind { array_vec_len out.old ≤ len }
    ensures bytes { out.new.items ≡ padded len out.old.items }
    ensures len { array_vec_len out.new ≡ len }
{
    for _ in out.len()..len {
        out.push(0);
    }
}
