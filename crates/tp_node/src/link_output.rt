//! The output end of a link.

ghost use Rattle.std.specs.Prelude.{◌≡◌, Some, None, IsSome};
ghost use Rattle.tp_model.specs.LinkEnd.{out_started, out_acked, next_pointer, is_waiting};
ghost use Rattle.tp_node.specs.Answer.{Answers};

use crate::busy::LinkBusy;
use crate::transfer::{advanced, has_more};
use std::marker::Model;
use tp_model::{Arrival, News, OutEnd, Token, Transfer};

/// Sends a message byte by byte, each after the acknowledge of the one before.
#[derive(Clone, Copy)]
pub struct OutEngine {
    end: OutEnd,
}

impl Model for OutEngine {
    ghost use Rattle.tp_model.specs.declared.link.OutEnd.{OutEnd};

    ghost Value = { OutEnd };

    ghost view = { λ e. e.end };

    ghost inverse = { λ end. record { end = end } };
}

impl OutEngine {
    /// Makes an engine of an output end.
    pub fn new(end: OutEnd) -> OutEngine
        ensures { result ≡ end }
    {
        OutEngine { end }
    }

    pub fn end(self) -> OutEnd
        ensures { result ≡ self }
    {
        self.end
    }

    /// Whether the end waits for an acknowledge.
    pub fn is_waiting(self) -> bool
        ensures { result ≡ is_waiting self }
    {
        match self.end {
            OutEnd::Idle => false,
            OutEnd::Waits(_) => true,
        }
    }

    /// Gives the address of the byte that leaves at the next acknowledge; `None` if none is left.
    pub fn next_pointer(self) -> Option<u32>
        ensures { result ≡ next_pointer self }
    {
        match self.end {
            OutEnd::Idle => None,
            OutEnd::Waits(transfer) if has_more(transfer) => Some(advanced(transfer).pointer),
            OutEnd::Waits(_) => None,
        }
    }

    /// Begins the message `transfer`, whose first byte leaves. `LinkBusy` if the end already waits.
    pub fn start(&mut self, transfer: Transfer, byte: u8) -> Result<Token, LinkBusy>
        ensures { Answers (out_started transfer byte self.old) self.old result self.new }
    {
        if self.is_waiting() {
            return Err(LinkBusy);
        }
        self.end = OutEnd::Waits(transfer);
        Ok(Token::Data(byte))
    }

    /// Takes an acknowledge. `next` is the byte that leaves then, if one is left.
    pub fn on_ack(&mut self, next: Option<u8>) -> Arrival
        requires { IsSome (out_acked next self.old) }
        ensures { out_acked next self.old ≡ Some (self.new, result) }
    {
        match (self.end, next) {
            (OutEnd::Waits(transfer), Some(byte)) if has_more(transfer) => {
                self.end = OutEnd::Waits(advanced(transfer));
                sends(Token::Data(byte))
            }
            (OutEnd::Waits(transfer), _) => {
                self.end = OutEnd::Idle;
                Arrival {
                    token: None,
                    place: None,
                    news: News::Process(transfer.process),
                }
            }
            (OutEnd::Idle, _) => unreachable!(),
        }
    }
}

/// Sends a token, and tells nobody.
fn sends(token: Token) -> Arrival
    ensures { result ≡ record { token = Some token; place = None; news = News.Nobody } }
{
    Arrival {
        token: Some(token),
        place: None,
        news: News::Nobody,
    }
}
