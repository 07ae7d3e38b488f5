//! The input end of a link.

ghost use Rattle.std.specs.Prelude.{◌≡◌, Some, None, IsSome, if◌then◌else◌};
ghost use Rattle.tp_model.specs.LinkEnd.{filled, in_started, in_arrived, in_enabled, in_disabled, is_holding, has_more};
ghost use Rattle.tp_node.specs.Answer.{Answers};

use crate::busy::LinkBusy;
use crate::transfer::{advanced, has_more};
use std::marker::Model;
use tp_model::{Arrival, InEnd, News, Started, Token, Transfer};

/// Takes the bytes that come. If nobody waits for a byte, it holds it, without an acknowledge.
#[derive(Clone, Copy)]
pub struct InEngine {
    end: InEnd,
}

impl Model for InEngine {
    ghost use Rattle.tp_model.specs.declared.link.InEnd.{InEnd};

    ghost Value = { InEnd };

    ghost view = { λ e. e.end };

    ghost inverse = { λ end. record { end = end } };
}

impl InEngine {
    /// Makes an engine of an input end.
    pub fn new(end: InEnd) -> InEngine
        ensures { result ≡ end }
    {
        InEngine { end }
    }

    pub fn end(self) -> InEnd
        ensures { result ≡ self }
    {
        self.end
    }

    /// Whether the end holds a byte that nobody has taken.
    pub fn is_holding(self) -> bool
        ensures { result ≡ is_holding self }
    {
        match self.end {
            InEnd::Idle(held) => held.is_some(),
            InEnd::Inputs(_) | InEnd::Enabled(_) => false,
        }
    }

    /// Begins the message `transfer`. A held byte is its first one, and is acknowledged. `LinkBusy` if the end inputs or is enabled.
    pub fn start(&mut self, transfer: Transfer) -> Result<Started, LinkBusy>
        ensures { Answers (in_started transfer self.old) self.old result self.new }
    {
        match self.end {
            InEnd::Idle(None) => {
                self.end = InEnd::Inputs(transfer);
                Ok(Started {
                    token: None,
                    byte: None,
                    waits: true,
                })
            }
            InEnd::Idle(Some(byte)) => {
                self.end = filled(transfer);
                Ok(Started {
                    token: Some(Token::Ack),
                    byte: Some(byte),
                    waits: has_more(transfer),
                })
            }
            InEnd::Inputs(_) | InEnd::Enabled(_) => Err(LinkBusy),
        }
    }

    /// Takes a byte that comes, while none is held.
    pub fn on_data(&mut self, byte: u8) -> Arrival
        requires { IsSome (in_arrived byte self.old) }
        ensures { in_arrived byte self.old ≡ Some (self.new, result) }
    {
        match self.end {
            InEnd::Idle(_) => {
                self.end = InEnd::Idle(Some(byte));
                quiet(News::Nobody)
            }
            InEnd::Enabled(process) => {
                self.end = InEnd::Idle(Some(byte));
                quiet(News::Alternative(process))
            }
            InEnd::Inputs(transfer) => {
                self.end = filled(transfer);
                Arrival {
                    token: Some(Token::Ack),
                    place: Some(transfer.pointer),
                    news: news_of(transfer),
                }
            }
        }
    }

    /// Enables the end for the alternative of `process`. Answers whether it already holds a byte. `LinkBusy` if it inputs, or another
    /// process enabled it.
    pub fn enable(&mut self, process: u32) -> Result<bool, LinkBusy>
        ensures { Answers (in_enabled process self.old) self.old result self.new }
    {
        match self.end {
            InEnd::Idle(None) => {
                self.end = InEnd::Enabled(process);
                Ok(false)
            }
            InEnd::Idle(Some(_)) => Ok(true),
            InEnd::Enabled(other) if other == process => Ok(false),
            InEnd::Inputs(_) | InEnd::Enabled(_) => Err(LinkBusy),
        }
    }

    /// Disables the end for the alternative of `process`. Answers whether it holds a byte. `LinkBusy` if it inputs, or another process
    /// enabled it.
    pub fn disable(&mut self, process: u32) -> Result<bool, LinkBusy>
        ensures { Answers (in_disabled process self.old) self.old result self.new }
    {
        match self.end {
            InEnd::Idle(held) => Ok(held.is_some()),
            InEnd::Enabled(other) if other == process => {
                self.end = InEnd::Idle(None);
                Ok(false)
            }
            InEnd::Inputs(_) | InEnd::Enabled(_) => Err(LinkBusy),
        }
    }
}

/// Gives the end after a byte of a message that went to memory.
fn filled(transfer: Transfer) -> InEnd
    ensures { result ≡ filled transfer }
{
    if has_more(transfer) {
        InEnd::Inputs(advanced(transfer))
    } else {
        InEnd::Idle(None)
    }
}

/// Says for whom a byte of a message is news: for its process, if the byte is the last one.
fn news_of(transfer: Transfer) -> News
    ensures { result ≡ (if has_more transfer then News.Nobody else News.Process transfer.process) }
{
    if has_more(transfer) {
        News::Nobody
    } else {
        News::Process(transfer.process)
    }
}

/// Sends nothing, and puts nothing into memory.
fn quiet(news: News) -> Arrival
    ensures { result ≡ record { token = None; place = None; news = news } }
{
    Arrival {
        token: None,
        place: None,
        news,
    }
}
