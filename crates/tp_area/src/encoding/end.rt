//! The ends of wires as numbers.

ghost use Rattle.std.specs.Prelude.{◌≡◌, ◌+◌, ◌*◌, ◌<◌, ◌≤◌, ℕ, true, map, length, get_or, None};
ghost use Rattle.tp_area.specs.Lower.{list_all, MAX_NODES, MAX_PORTS, end_number, end_of_number, first_port};
ghost use Rattle.tp_area.specs.Ends.{is_end_number};

use arrayvec::ArrayVec;
use tp_model::limits::{MAX_NODES, MAX_PORTS, NARROW_PORT, WIDE_PORT};
use tp_model::{HeadVersion, WireEnd};
use tp_net::{MAX_LINES, link_line};

/// Gives the number of port 0.
fn first_port(version: HeadVersion) -> u16
    ensures { result ≡ first_port version }
{
    match version {
        HeadVersion::Narrow => NARROW_PORT as u16,
        HeadVersion::Wide => WIDE_PORT as u16,
    }
}

/// Gives the number of the other end of a wire.
fn end_number(version: HeadVersion, end: Option<WireEnd>) -> u16
    requires { end_number version end < first_port version + MAX_PORTS }
    ensures { result ≡ end_number version end }
{
    match end {
        None => 0,
        Some(WireEnd::Link(node, link)) => 1 + 4 * u16::from(node) + u16::from(link),
        Some(WireEnd::Port(port)) => first_port(version) + u16::from(port),
    }
}

/// Gives the numbers of the other ends of wires.
pub(crate) fn end_numbers(
    version: HeadVersion,
    ends: &[Option<WireEnd>],
) -> ArrayVec<u16, MAX_LINES>
    requires few { length ends.now ≤ MAX_LINES }
    requires low { (i : ℕ) → i < length ends.now → end_number version (get_or ends.now i None) < first_port version + MAX_PORTS }
    ensures { result.items ≡ map (end_number version) ends.now }
{
    let mut numbers = ArrayVec::new();
    for end in ends {
        numbers.push(end_number(version, *end));
    }
    numbers
}

/// Whether `number` is that of an end that a network may have, or of none.
fn is_number(version: HeadVersion, number: u16) -> bool
    ensures { result ≡ is_end_number version number }
{
    let first = first_port(version);
    if number < first {
        usize::from(number) <= link_line(MAX_NODES, 0)
    } else {
        usize::from(number - first) < MAX_PORTS
    }
}

/// Whether each of `numbers` is that of such an end, or of none.
pub(crate) fn are_numbers(version: HeadVersion, numbers: &[u16]) -> bool
    ensures { result ≡ list_all (is_end_number version) numbers.now }
{
    for number in numbers {
        if !is_number(version, *number) {
            return false;
        }
    }
    true
}

/// Gives the end of a wire with this number.
fn end_of_number(version: HeadVersion, number: u16) -> Option<WireEnd>
    requires { is_end_number version number ≡ true }
    ensures { result ≡ end_of_number version number }
{
    let first = first_port(version);
    if number == 0 {
        None
    } else if number < first {
        let line = number - 1;
        Some(WireEnd::Link((line / 4) as u8, (line % 4) as u8))
    } else {
        Some(WireEnd::Port((number - first) as u8))
    }
}

/// Gives the ends of wires with these numbers.
pub(crate) fn ends_of(version: HeadVersion, numbers: &[u16]) -> ArrayVec<Option<WireEnd>, MAX_LINES>
    requires few { length numbers.now ≤ MAX_LINES }
    requires ends { list_all (is_end_number version) numbers.now ≡ true }
    ensures { result.items ≡ map (end_of_number version) numbers.now }
{
    let mut ends = ArrayVec::new();
    for number in numbers {
        ends.push(end_of_number(version, *number));
    }
    ends
}
