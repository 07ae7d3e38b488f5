//! Records of lines.

ghost use Rattle.std.specs.Prelude.{◌≡◌, ◌≤◌, ◌<◌, ◌*◌, true, if◌then◌else◌, Some, None, flat_map, length};
ghost use Rattle.tp_area.specs.Lower.{AllByRecursion, option_map, array_vec_len, on_line, is_line_of, line_bytes, line_with, tokens_of, has_record};
ghost use Rattle.tp_area.specs.Lines.{tokens_on};

use crate::encoding::written::put;
use arrayvec::ArrayVec;
use tp_model::limits::LINE_BYTES;
use tp_model::{Token, WireEnd};
use tp_net::{Lines, MAX_LINES};

/// The most bytes that the records of all lines have.
pub const LINES_BYTES: usize = LINE_BYTES * MAX_LINES;

/// The tokens on a line of a cut, first the one that comes next.
#[derive(Clone, Copy)]
pub enum LineTokens {
    Empty,
    Data(u8),
    Ack,
    DataAck(u8),
    AckData(u8),
}

impl LineTokens {
    /// Reads the tokens as those of a cut; `None` if a cut has no line with them.
    pub fn of(tokens: &[Token]) -> Option<LineTokens>
        ensures { option_map tokens_on result ≡ (if has_record tokens.now then Some tokens.now else None) }
    {
        match tokens {
            [] => Some(LineTokens::Empty),
            [Token::Data(byte)] => Some(LineTokens::Data(*byte)),
            [Token::Ack] => Some(LineTokens::Ack),
            [Token::Data(byte), Token::Ack] => Some(LineTokens::DataAck(*byte)),
            [Token::Ack, Token::Data(byte)] => Some(LineTokens::AckData(*byte)),
            _ => None,
        }
    }

    /// Gives the tokens that the fields of a record spell, if they spell some.
    fn of_fields(count: u8, first: u8, byte: u8) -> LineTokens
        ensures { tokens_on result ≡ tokens_of count first byte }
    {
        match (count, first) {
            (0, _) => LineTokens::Empty,
            (1, 1) => LineTokens::Data(byte),
            (1, _) => LineTokens::Ack,
            (_, 1) => LineTokens::DataAck(byte),
            (_, _) => LineTokens::AckData(byte),
        }
    }

    /// Encodes the record of a line.
    pub fn record(self) -> [u8; LINE_BYTES]
        ensures { result ≡ line_bytes (tokens_on self) }
    {
        match self {
            LineTokens::Empty => [0, 0, 0, 0],
            LineTokens::Data(byte) => [1, 1, 0, byte],
            LineTokens::Ack => [1, 2, 0, 0],
            LineTokens::DataAck(byte) => [2, 1, 2, byte],
            LineTokens::AckData(byte) => [2, 2, 1, byte],
        }
    }

    /// Whether a line with `wire` may have the tokens.
    fn may_be_on(self, wire: Option<WireEnd>) -> bool
        ensures { result ≡ is_line_of wire (tokens_on self) }
    {
        wire.is_some() || matches!(self, LineTokens::Empty)
    }
}

/// Reads the tokens of a line with wire `wire` from its record; `None` if `bytes` are no such record.
pub fn line_in(wire: Option<WireEnd>, bytes: &[u8]) -> Option<LineTokens>
    requires { length bytes.now ≡ LINE_BYTES }
    ensures { option_map tokens_on result ≡ line_with wire bytes.now }
{
    let line = LineTokens::of_fields(bytes[0], bytes[1], bytes[3]);
    let record = line.record();
    if bytes[..] == record[..] && line.may_be_on(wire) {
        Some(line)
    } else {
        None
    }
}

/// Gives the tokens on line `line`, which a cut can have.
fn tokens_on(lines: &Lines, line: usize) -> LineTokens
    requires there { line < length lines.now }
    requires recorded { has_record (on_line lines.now line) ≡ true }
    ensures { tokens_on result ≡ on_line lines.now line }
{
    match (lines.get(line, 0), lines.get(line, 1)) {
        (None, _) => LineTokens::Empty,
        (Some(Token::Data(byte)), None) => LineTokens::Data(byte),
        (Some(Token::Data(byte)), Some(_)) => LineTokens::DataAck(byte),
        (Some(_), Some(Token::Data(byte))) => LineTokens::AckData(byte),
        (Some(_), _) => LineTokens::Ack,
    }
}

/// Gives the records of all lines, one after the other.
pub fn lines_bytes(lines: &Lines) -> ArrayVec<u8, LINES_BYTES>
    requires few { length lines.now ≤ MAX_LINES }
    requires recorded { AllByRecursion (λ line. has_record line ≡ true) lines.now }
    ensures bytes { result.items ≡ flat_map line_bytes lines.now }
    ensures len { array_vec_len result ≡ LINE_BYTES * length lines.now }
{
    let mut out = ArrayVec::new();
    for line in 0..lines.count() {
        let record = tokens_on(lines, line).record();
        put(&record, &mut out);
    }
    out
}
