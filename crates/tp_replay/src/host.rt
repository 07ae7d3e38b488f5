//! What the host does at ports.

ghost use Rattle.std.specs.Prelude.{◌≡◌, OnErr};
ghost use Rattle.tp_replay.specs.Lower.{HostIn, Confirm, next, t414};
ghost use Rattle.tp_replay.specs.Answers.{AppliesEntry};

use crate::fault::NotPossible;
use crate::front::{can_confirm, has_room};
use crate::network::FlatNetwork;
use tp_book::send_some;

impl FlatNetwork {
    /// Hands a byte from the host to a port. `NotPossible` if the port doesn't exist or has no room.
    #[inline(never)]
    pub(crate) fn hand_in(&mut self, port: u8, byte: u8) -> Result<(), NotPossible>
        ensures applies { AppliesEntry (next t414 self.old (HostIn port byte)) result self.new }
        ensures err { OnErr result (self.new ≡ self.old) }
    {
        let i = port as usize;
        let line = self.port_line(i);
        if i >= self.ports.len() {
            return Err(NotPossible);
        }
        if !has_room(&self.ports[i]) {
            return Err(NotPossible);
        }
        let token = self.ports[i].hand_in(byte);
        send_some(&self.wires, &mut self.lines, line, token);
        Ok(())
    }

    /// Confirms a port's output up to a position. `NotPossible` if the port doesn't exist or has no such outputs.
    #[inline(never)]
    pub(crate) fn confirm(&mut self, port: u8, upto: u64) -> Result<(), NotPossible>
        ensures applies { AppliesEntry (next t414 self.old (Confirm port upto)) result self.new }
        ensures err { OnErr result (self.new ≡ self.old) }
    {
        let i = port as usize;
        if i >= self.ports.len() {
            return Err(NotPossible);
        }
        if !can_confirm(&self.ports[i], upto) {
            return Err(NotPossible);
        }
        self.ports[i].confirm(upto);
        Ok(())
    }
}
