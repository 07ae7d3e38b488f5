//! Tokens that a node takes, one at a time.

ghost use Rattle.std.specs.Prelude.{◌≡◌, None};
ghost use Rattle.tp_trace.specs.Lower.{option_map, IsNodeOfBytes};
ghost use Rattle.tp_trace.specs.Steps.{Hears};

use tp_law_machine::carries_byte;
use tp_model::Token;
use tp_node::{NoFrame, Node};

/// What is seen of a token that came in: its link, the token, and the answer with its link, if there was one.
#[derive(Clone, Copy)]
pub struct Heard {
    pub link: u8,
    pub token: Token,
    pub sent: Option<(u8, Token)>,
}

/// What leaves on a link, with that link.
fn on_link(link: u8, token: Option<Token>) -> Option<(u8, Token)>
    ensures { result ≡ option_map (λ token. (link, token)) token }
{
    match token {
        Some(token) => Some((link, token)),
        None => None,
    }
}

/// Has a node take a token that comes in on a link, and says what was done; `None` if the node can't take it.
pub fn trace_take(node: &mut Node, link: u8, token: Token) -> Option<Heard>
    requires thawed { node.old.frozen ≡ None }
    requires bytes { IsNodeOfBytes node.old.live }
    ensures hears { Hears result node.old.live link token node.new.live }
    ensures thawed { node.new.frozen ≡ None }
    ensures bytes { IsNodeOfBytes node.new.live }
{
    carries_byte(token);
    if !node.can_take(link, &token) {
        return None;
    }
    match node.take(link, token) {
        Ok(answer) => Some(Heard {
            link,
            token,
            sent: on_link(link, answer),
        }),
        Err(NoFrame) => unreachable!(),
    }
}
