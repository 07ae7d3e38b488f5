//! What is tested before an entry is done.

ghost use Rattle.std.specs.Prelude.{◌≡◌, ◌<◌, ℕ, IsTrue, List, length, Some, is_some, ◌&&◌, not, slice_get};
ghost use Rattle.tp_replay.specs.Lower.{port_took, handed_in, confirmed, is_marker, is_first, Token};

use tp_book::HostPort;
use tp_model::Token;
use tp_model::limits::MAX_HELD;

/// Whether a token is at the front of a line, given that front.
pub(crate) fn is_front(front: Option<Token>, token: Token) -> bool
    ensures { (line : List Token) → slice_get line 0 ≡ front → result ≡ is_first line token }
{
    match (front, token) {
        (Some(Token::Data(byte)), Token::Data(other)) => byte == other,
        (Some(Token::Ack), Token::Ack) => true,
        (Some(Token::Marker), Token::Marker) => true,
        _ => false,
    }
}

/// Whether a token is at the front of a line and is no Marker.
pub(crate) fn stands_in_front(front: Option<Token>, token: Token) -> bool
    ensures { (line : List Token) → slice_get line 0 ≡ front → result ≡ (is_first line token && not (is_marker token)) }
{
    match token {
        Token::Marker => false,
        Token::Data(_) | Token::Ack => is_front(front, token),
    }
}

/// Whether a port can take a token: it has room for a byte, or a byte that the acknowledge takes off.
pub(crate) fn can_take(port: &HostPort, token: Token) -> bool
    ensures { result ≡ is_some (port_took token port.now.port) }
{
    match token {
        Token::Data(_) => !port.is_full(),
        Token::Ack => !port.pending().is_empty(),
        Token::Marker => false,
    }
}

/// Whether a port can drop its outputs up to a position, which is above what was confirmed and at most what there is.
pub(crate) fn can_confirm(port: &HostPort, upto: u64) -> bool
    ensures { result ≡ is_some (confirmed upto port.now.port) }
{
    let base = port.out_base();
    base < upto && upto - base <= port.outputs().len() as u64
}

/// Whether a port has room for a byte from the host.
pub(crate) fn has_room(port: &HostPort) -> bool
    ensures value { (byte : ℕ) → result ≡ is_some (handed_in byte port.now.port) }
    ensures room { IsTrue result → length port.now.port.pending < MAX_HELD }
{
    port.pending().len() < MAX_HELD
}
