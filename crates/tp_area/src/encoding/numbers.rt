//! Numbers one after the other, in one byte each or in two.

ghost use Rattle.std.specs.Prelude.{◌≡◌, ◌+◌, ◌*◌, ◌≤◌, ◌<◌, ◌^◌, ◌++◌, ℕ, length, flat_map, get_or};
ghost use Rattle.tp_area.specs.Lower.{array_vec_len, MAX_PORTS, u16_bytes, first_port, numbers_at, numbers_bytes, u16s_at};

use crate::encoding::written::put;
use arrayvec::ArrayVec;
use tp_model::HeadVersion;
use tp_model::number::u16_at;

/// Appends numbers, one byte each.
fn put_u8s<const N: usize>(numbers: &[u16], out: &mut ArrayVec<u8, N>)
    requires room { array_vec_len out.old + length numbers.now ≤ N }
    requires low { (i : ℕ) → i < length numbers.now → get_or numbers.now i 0 < 2 ^ 8 }
    ensures bytes { out.new.items ≡ out.old.items ++ numbers.now }
    ensures len { array_vec_len out.new ≡ array_vec_len out.old + length numbers.now }
{
    for number in numbers {
        out.push(*number as u8);
    }
}

/// Appends numbers, two bytes each.
pub(crate) fn put_u16s<const N: usize>(numbers: &[u16], out: &mut ArrayVec<u8, N>)
    requires { array_vec_len out.old + 2 * length numbers.now ≤ N }
    ensures bytes { out.new.items ≡ out.old.items ++ flat_map u16_bytes numbers.now }
    ensures len { array_vec_len out.new ≡ array_vec_len out.old + 2 * length numbers.now }
{
    for number in numbers {
        put(&number.to_le_bytes(), out);
    }
}

/// Appends the numbers of ends as a head of version `version` has them.
pub(crate) fn put_numbers<const N: usize>(
    version: HeadVersion,
    numbers: &[u16],
    out: &mut ArrayVec<u8, N>,
)
    requires room { array_vec_len out.old + 2 * length numbers.now ≤ N }
    requires low { (i : ℕ) → i < length numbers.now → get_or numbers.now i 0 < first_port version + MAX_PORTS }
    ensures bytes { out.new.items ≡ out.old.items ++ numbers_bytes version numbers.now }
    ensures len { array_vec_len out.new ≤ array_vec_len out.old + 2 * length numbers.now }
{
    match version {
        HeadVersion::Narrow => put_u8s(numbers, out),
        HeadVersion::Wide => put_u16s(numbers, out),
    }
}

/// Reads the numbers in one byte each.
fn u8s_in<const N: usize>(bytes: &[u8]) -> ArrayVec<u16, N>
    requires few { length bytes.now ≤ N }
    ensures { result.items ≡ bytes.now }
{
    let mut numbers = ArrayVec::new();
    for byte in bytes {
        numbers.push(u16::from(*byte));
    }
    numbers
}

/// Reads `count` numbers in two bytes each.
pub(crate) fn u16s_in<const N: usize>(count: usize, bytes: &[u8]) -> ArrayVec<u16, N>
    requires few { count ≤ N }
    requires there { 2 * count ≤ length bytes.now }
    ensures value { result.items ≡ u16s_at count bytes.now }
    ensures len { array_vec_len result ≡ count }
{
    let mut numbers = ArrayVec::new();
    let mut rest = bytes;
    for _ in 0..count {
        let (front, behind) = rest.split_at(2);
        numbers.push(u16_at(front, 0));
        rest = behind;
    }
    numbers
}

/// Reads `count` numbers of ends, as a head of version `version` has them.
pub(crate) fn numbers_in<const N: usize>(
    version: HeadVersion,
    count: usize,
    bytes: &[u8],
) -> ArrayVec<u16, N>
    requires few { count ≤ N }
    requires there { 2 * count ≤ length bytes.now }
    ensures value { result.items ≡ numbers_at version count bytes.now }
    ensures len { array_vec_len result ≡ count }
{
    match version {
        HeadVersion::Narrow => u8s_in(&bytes[..count]),
        HeadVersion::Wide => u16s_in(count, bytes),
    }
}
