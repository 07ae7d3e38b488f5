//! What nodes have done since the checkpoint, by the journal's entries after it.

ghost use Rattle.std.specs.Prelude.{◌≡◌, filter, length};
ghost use Rattle.tp_views.specs.Done.{amount, amount_of, is_counted, steps_made, total};

use crate::text::journal::is_of;
use crate::trace::tracing_entries::{steps_in, tokens_in};
use tp_book::Numbered;
use tp_model::{Entry, Token, WireEnd};
use tp_recover::Opened;
use tp_replay::FlatNetwork;

/// What to count of an entry.
#[derive(Clone, Copy)]
pub(crate) enum Count {
    /// The entry itself.
    Entries,
    /// The steps that it made.
    Steps,
    /// The bytes that came in on a link.
    BytesIn(u8),
    /// The bytes that went out on a link: those whose acknowledge came in there.
    BytesOut(u8),
}

/// Whether a token counts: it came in on this link, and it is a byte or, if `is_byte` is false, an acknowledge.
fn is_counted(is_byte: bool, link: u8, one: &(u8, Token)) -> bool
    ensures { result ≡ is_counted is_byte link one.now }
{
    let counts = match one.1 {
        Token::Data(_) => is_byte,
        Token::Ack => !is_byte,
        Token::Marker => false,
    };
    counts && one.0 == link
}

/// How many of these tokens count.
fn count_tokens(is_byte: bool, link: u8, tokens: &[(u8, Token)]) -> usize
    ensures { result ≡ length (filter (is_counted is_byte link) tokens.now) }
{
    let mut count = 0;
    for one in tokens {
        if is_counted(is_byte, link, one) {
            count += 1;
        }
    }
    count
}

/// How much an entry has of what is counted.
fn amount(what: Count, wires: &[Option<WireEnd>], entry: &Entry) -> u64
    ensures { result ≡ amount what wires.now entry.now }
{
    match what {
        Count::Entries => 1,
        Count::Steps => steps_in(entry) as u64,
        Count::BytesIn(link) => {
            count_tokens(true, link, tokens_in(wires, entry).as_slice()) as u64
        }
        Count::BytesOut(link) => {
            count_tokens(false, link, tokens_in(wires, entry).as_slice()) as u64
        }
    }
}

/// How much an entry has of that, for a node or for all processes.
fn amount_of(
    what: Count,
    node: Option<u64>,
    wires: &[Option<WireEnd>],
    nodes: usize,
    entry: &Entry,
) -> u64
    ensures { result ≡ amount_of what node wires.now nodes entry.now }
{
    if is_of(node, wires, nodes, *entry) {
        amount(what, wires, entry)
    } else {
        0
    }
}

/// How much the entries of a node have of that, or all entries.
pub(crate) fn total(
    what: Count,
    node: Option<u64>,
    wires: &[Option<WireEnd>],
    nodes: usize,
    kept: &[Numbered],
) -> u128
    ensures { result ≡ total what node wires.now nodes kept.now }
{
    let mut sum = 0;
    for one in kept {
        sum += amount_of(what, node, wires, nodes, &one.entry) as u128;
    }
    sum
}

/// How many nodes a network has.
pub(crate) fn node_count(network: &FlatNetwork) -> usize
    ensures { result ≡ length network.now.nodes }
{
    network.nodes().len()
}

/// How many steps all nodes of an opened device have made since its checkpoint.
pub(crate) fn steps_made(opened: &Opened) -> u128
    ensures { result ≡ steps_made opened.now }
{
    let wires = opened.head().topology().wires();
    let nodes = opened.network().nodes().len();
    total(Count::Steps, None, wires, nodes, opened.kept())
}
