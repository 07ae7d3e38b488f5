//! What a node receives for a turn that is one entry. The tokens stay on their lines until the entry is journalled.

ghost use Rattle.std.specs.Prelude.{◌≡◌, ◌<◌, ◌≤◌, ◌+◌, IsSome, Some, length};
ghost use Rattle.tp_turn.specs.Lower.{IsNodeOfBytes, took, received, count_of_nodes};
ghost use Rattle.tp_turn.specs.Moments.{IsNodeOf};
ghost use Rattle.tp_turn.specs.Receiving.{Answered, HasPlace, IsAhead, Receives, ReceivesOf, TakesOrLacks, offered, offered_on};

use arrayvec::ArrayVec;
use tp_book::Book;
use tp_law_machine::carries_byte;
use tp_model::{Received, Token};
use tp_net::line_of;
use tp_node::Node;

/// What a node received, by link, and what it answered, each token with its link.
#[derive(Drop)]
pub struct Taken {
    pub takes: [Received; 4],
    pub sent: ArrayVec<(u8, Token), 8>,
}

/// Has a node take a token, and appends its answer to `sent`. Answers whether it took it: memory may have no frame for it.
#[inline(always)]
fn take_one(node: &mut Node, link: u8, token: Token, sent: &mut ArrayVec<(u8, Token), 8>) -> bool
    requires possible { IsSome (took node.old.live link token) }
    requires image { IsNodeOfBytes node.old.live }
    requires room { length sent.old.items < 8 }
    ensures did { TakesOrLacks link token result node.old sent.old.items node.new sent.new.items }
    ensures image { IsNodeOfBytes node.new.live }
    ensures few { length sent.new.items ≤ length sent.old.items + 1 }
{
    carries_byte(token);
    match node.take(link, token) {
        Ok(Some(answer)) => {
            sent.push((link, answer));
            true
        }
        Ok(None) => true,
        Err(_) => false,
    }
}

/// Has a node take what is there for it on a link, in order. Answers what it took: all, or what comes before a token for which memory has
/// no frame.
#[inline(always)]
fn take_each(
    node: &mut Node,
    link: u8,
    there: Received,
    sent: &mut ArrayVec<(u8, Token), 8>,
) -> Received
    requires link { link < 4 }
    requires place { HasPlace link (received there) node.old.live }
    requires image { IsNodeOfBytes node.old.live }
    requires room { length sent.old.items ≤ 6 }
    ensures did { Answered (ReceivesOf link (received there) result) node.old sent.old.items node.new sent.new.items }
    ensures image { IsNodeOfBytes node.new.live }
    ensures few { length sent.new.items ≤ length sent.old.items + 2 }
{
    match there {
        Received::Nothing => Received::Nothing,
        Received::JustData(byte) => {
            if take_one(node, link, Token::Data(byte), sent) {
                there
            } else {
                Received::Nothing
            }
        }
        Received::JustAck => {
            if take_one(node, link, Token::Ack, sent) {
                there
            } else {
                Received::Nothing
            }
        }
        Received::DataThenAck(byte) => {
            if !take_one(node, link, Token::Data(byte), sent) {
                Received::Nothing
            } else if !take_one(node, link, Token::Ack, sent) {
                Received::JustData(byte)
            } else {
                there
            }
        }
        Received::AckThenData(byte) => {
            if !take_one(node, link, Token::Ack, sent) {
                Received::Nothing
            } else if !take_one(node, link, Token::Data(byte), sent) {
                Received::JustAck
            } else {
                there
            }
        }
    }
}

/// Gives what a line has for its node in a turn: the tokens before its first Marker. Without `all` a line has nothing, unless a running
/// snapshot needs what is taken from it.
#[inline(always)]
fn offered(book: &Book, line: u16, all: bool) -> Received
    requires there { line < length book.now.state.lines }
    ensures { received result ≡ offered book.now all (Some line) }
{
    if all || book.needs_take(line) {
        book.waiting(line)
    } else {
        Received::Nothing
    }
}

/// Gives what a line has for the node that it leads to on a link; nothing if there is no such line.
#[inline(always)]
fn offered_on(book: &Book, number: u8, link: u8, all: bool) -> Received
    requires number { number < count_of_nodes book.now }
    requires link { link < 4 }
    ensures { received result ≡ offered_on book.now all number link }
{
    book.known();
    match book.receiver(4 * number as u16 + link as u16) {
        Some(end) => offered(book, line_of(book.nodes(), end) as u16, all),
        None => Received::Nothing,
    }
}

/// Has a node receive on links 0 to 3 in order: it takes the tokens before the line's first Marker, one after the other. It leaves a link
/// at a token for which memory has no frame. Without `all` it receives only on lines from which a running snapshot needs what is taken. The
/// book stays as it is, so the node is ahead of it.
#[inline(always)]
pub(crate) fn receive(book: &Book, node: &mut Node, number: u8, all: bool) -> Taken
    requires is { IsNodeOf book.now number node.old }
    ensures did { Receives book.now all number result.takes node.old result.sent.items node.new }
    ensures ahead { IsAhead book.now number result.takes result.sent.items node.new }
{
    book.known();
    let mut sent = ArrayVec::new();
    let takes = [
        take_each(node, 0, offered_on(book, number, 0, all), &mut sent),
        take_each(node, 1, offered_on(book, number, 1, all), &mut sent),
        take_each(node, 2, offered_on(book, number, 2, all), &mut sent),
        take_each(node, 3, offered_on(book, number, 3, all), &mut sent),
    ];
    Taken { takes, sent }
}
