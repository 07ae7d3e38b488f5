//! Outputs that a mark shows.

ghost use Rattle.std.specs.Prelude.{◌≡◌, ◌<◌, ◌≤◌, ◌+◌, ◌^◌, length, count_by, nat_le};
ghost use Rattle.tp_book.specs.Host.{port_in, shown_of, shown_upto_of, shown_from, ShowsUpto};

use crate::journal::Journal;

/// Counts those of `marks` that are at most `mark`.
fn count_within(marks: &[u64], mark: u64) -> usize
    ensures value { result ≡ count_by (λ least. nat_le least mark) marks.now }
    ensures bound { result ≤ length marks.now }
{
    let mut count = 0;
    for least in marks {
        if *least <= mark {
            count += 1;
        }
    }
    count
}

impl Journal {
    /// Counts the outputs of a port that a mark shows.
    fn shown_count(&self, port: u8, mark: u64) -> usize
        requires { port < length self.now.state.ports }
        ensures value { result ≡ shown_of self.now port mark }
        ensures bound { result ≤ length (port_in self.now port).outputs }
        ensures few { shown_upto_of self.now port mark < 2 ^ 48 }
        ensures exactly { ShowsUpto self.now port mark (shown_upto_of self.now port mark) }
    {
        count_within(self.ports[port as usize].marks(), mark)
    }

    /// Gives the position up to which a mark shows a port's outputs. An output is shown once the mark is above the number of the entry by
    /// which the port took it.
    pub(crate) fn shown_upto(&self, port: u8, mark: u64) -> u64
        requires { port < length self.now.state.ports }
        ensures value { result ≡ shown_upto_of self.now port mark }
        ensures exactly { ShowsUpto self.now port mark result }
    {
        self.out_base(port) + self.shown_count(port, mark) as u64
    }

    /// Gives the outputs of a port that a mark shows, from a position on.
    pub(crate) fn shown(&self, port: u8, mark: u64, from: u64) -> &[u8]
        requires there { port < length self.now.state.ports }
        requires base { (port_in self.now port).out_base ≤ from }
        requires shown { from ≤ shown_upto_of self.now port mark }
        ensures value { result.now ≡ shown_from self.now port mark from }
        ensures exactly { ShowsUpto self.now port mark (from + length result.now) }
    {
        let first = (from - self.out_base(port)) as usize;
        let count = self.shown_count(port, mark);
        &self.outputs(port)[first..count]
    }
}
