//! A port's output, which is put at its positions and made safe.

ghost use Rattle.std.specs.Prelude.{◌≡◌, ◌<◌, ◌≤◌, Some, IfSome, IfNone};
ghost use Rattle.tp_stream_files.specs.Held.{HasAtMost, HasLength, HasReach, Reaches};
ghost use Rattle.tp_stream_files.specs.Outputs.{IsOfPort};

use crate::sink::Sink;
use std::marker::Model;

/// A port's output and its sink. It is never confirmed further than it was put and is safe.
#[derive(Drop)]
pub struct Output<S: Sink> {
    port: u8,
    have: Option<u64>,
    confirmed: u64,
    pub next: u64,
    pub sink: S,
}

impl<S: Sink> Model for Output<S> {
    ghost use Rattle.std.specs.Prelude.{◌≤◌};
    ghost use Rattle.tp_stream_files.specs.Held.{Reaches};
    ghost use Rattle.tp_stream_files.specs.Outputs.{IsOfPort, OutputValue};

    ghost Value = { OutputValue };

    ghost view = { λ o. record { port = o.port; have = o.have; path = S.path o.sink; confirmed = o.confirmed; next = o.next; held = S.held o.sink } };

    ghost invariant = { λ o. (o.confirmed ≤ o.next) × Reaches o.next (S.held o.sink) × IsOfPort o.port (S.port o.sink) };
}

/// How many bytes a sink has, if that is more than `upto`; else `None`.
#[tactic(auto, using(crate::proofs::StreamEndsSinks::has_at_most, crate::proofs::StreamEndsSinks::has_no_length))]
fn excess<S: Sink>(sink: &S, upto: u64) -> Option<u64>
    ensures some { IfSome result (λ has. HasLength (Some has) (S.held sink.now) × (upto < has)) }
    ensures none { IfNone result (HasAtMost upto (S.held sink.now)) }
{
    match sink.length() {
        Some(has) if upto < has => Some(has),
        _ => None,
    }
}

impl<S: Sink> Output<S> {
    /// Makes the output of the port `port` into a sink. `have` is the position up to which the sink's reader says that it has the output; `None`
    /// stands for that up to which it is confirmed.
    pub fn new(port: u8, have: Option<u64>, sink: S) -> Output<S>
        requires { IsOfPort port (S.port sink) }
        ensures { result ≡ record { port = port; have = have; path = S.path sink; confirmed = 0; next = 0; held = S.held sink } }
    {
        Output {
            port,
            have,
            confirmed: 0,
            next: 0,
            sink,
        }
    }

    /// Gives the port.
    pub fn port(&self) -> u8
        ensures { result ≡ self.now.port }
    {
        self.port
    }

    /// Gives the position up to which the sink's reader says that it has the output.
    pub fn have(&self) -> Option<u64>
        ensures { result ≡ self.now.have }
    {
        self.have
    }

    /// Gives the position up to which the output was put and is safe.
    pub fn put(&self) -> u64
        ensures { result ≡ self.now.next }
    {
        self.next
    }

    /// Gives the position up to which the output is confirmed.
    pub fn confirmed(&self) -> u64
        ensures value { result ≡ self.now.confirmed }
        ensures put { result ≤ self.now.next }
    {
        self.confirmed
    }

    /// Promises what is always true: all that was put is safe, and no more than that is confirmed. It does nothing.
    pub fn known(&self)
        ensures confirmed { self.now.confirmed ≤ self.now.next }
        ensures safe { Reaches self.now.next self.now.held }
    {
        let _port = self.port;
    }

    /// Gives its sink.
    pub fn into_sink(self) -> S
        ensures { S.held result ≡ self.held }
    {
        let Output { sink, .. } = self;
        sink
    }

    /// Up to which position its sink can be put.
    pub fn reach(&self) -> u64
        ensures there { Reaches result self.now.held }
        ensures exactly { HasReach result self.now.held }
    {
        self.sink.reach()
    }

    /// How many bytes its sink has, if that is more than `upto`; else `None`.
    pub fn excess(&self, upto: u64) -> Option<u64>
        ensures some { IfSome result (λ has. HasLength (Some has) self.now.held × (upto < has)) }
        ensures none { IfNone result (HasAtMost upto self.now.held) }
    {
        excess(&self.sink, upto)
    }

    /// Sets the output out: it is confirmed up to `confirmed`, and was put up to `next`.
    pub fn set(&mut self, confirmed: u64, next: u64)
        requires confirmed { confirmed ≤ next }
        requires safe { Reaches next self.old.held }
        ensures { self.new ≡ record self.old { confirmed = confirmed; next = next } }
    {
        self.confirmed = confirmed;
        self.next = next;
    }

    /// Notes that all that was put is confirmed.
    pub fn confirm(&mut self)
        ensures { self.new ≡ record self.old { confirmed = self.old.next } }
    {
        self.confirmed = self.next;
    }
}
