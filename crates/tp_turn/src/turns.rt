//! Turns of the node and the host.

ghost use Rattle.std.specs.Prelude.{◌≡◌, ◌+◌, ◌*◌, ◌%◌, ◌<◌, ◌≤◌, ◌==◌, MatchResult};
ghost use Rattle.tp_book.specs.Book.{next_in_book};
ghost use Rattle.tp_turn.specs.Lone.{IsLone, WentByAct};
ghost use Rattle.tp_turn.specs.TrialTurns.{AreTurns, IsHostTurn, IsNodeTurn, IsTurnOf};
ghost use Rattle.tp_turn.specs.declared.image.TryFault.TheVariants.{Memory};

use crate::image::TryFault;
use crate::lone::Lone;
use crate::{TURN_ENTRIES, host_turn, whole_turn};
use tp_book::Refusal;
use tp_model::limits::{MAX_STEPS, NUMBER_LIMIT};

impl Lone {
    /// Does a turn of the node, as workers make it. `Memory` if memory is out.
    fn node_turn(&mut self, quantum: u16) -> Result<(), TryFault>
        requires quantum { quantum ≤ MAX_STEPS }
        requires lone { IsLone self.old }
        requires few { next_in_book self.old.book + TURN_ENTRIES + 1 < NUMBER_LIMIT }
        ensures { MatchResult result (λ done. WentByAct (IsNodeTurn quantum 0) TURN_ENTRIES self.old self.new) (λ fault. fault ≡ Memory) }
    {
        match whole_turn(&mut self.book, &mut self.node, &mut self.runs, 0, quantum) {
            Ok(_turn) => Ok(()),
            Err(Refusal::Memory) => Err(TryFault::Memory),
            Err(_) => unreachable!(),
        }
    }

    /// Does a turn of the host, as workers make it. `Memory` if memory is out.
    fn host_turn(&mut self) -> Result<(), TryFault>
        requires lone { IsLone self.old }
        requires few { next_in_book self.old.book + TURN_ENTRIES + 1 < NUMBER_LIMIT }
        ensures { MatchResult result (λ done. WentByAct IsHostTurn TURN_ENTRIES self.old self.new) (λ fault. fault ≡ Memory) }
    {
        match host_turn(&mut self.book) {
            Ok(_takes) => Ok(()),
            Err(Refusal::Memory) => Err(TryFault::Memory),
            Err(_) => unreachable!(),
        }
    }

    /// Does the turn with this number: an even one is the node's, an odd one the host's.
    fn turn_of(&mut self, number: u32, quantum: u16) -> Result<(), TryFault>
        requires quantum { quantum ≤ MAX_STEPS }
        requires lone { IsLone self.old }
        requires few { next_in_book self.old.book + TURN_ENTRIES + 1 < NUMBER_LIMIT }
        ensures { MatchResult result (λ done. WentByAct (IsTurnOf quantum (number % 2 == 0)) TURN_ENTRIES self.old self.new) (λ fault. fault ≡ Memory) }
    {
        if number % 2 == 0 {
            self.node_turn(quantum)
        } else {
            self.host_turn()
        }
    }

    /// Does the turn with this number, after which the book forgets what it journalled.
    fn turn(&mut self, number: u32, quantum: u16) -> Result<(), TryFault>
        requires quantum { quantum ≤ MAX_STEPS }
        requires lone { IsLone self.old }
        requires few { next_in_book self.old.book + TURN_ENTRIES + 1 < NUMBER_LIMIT }
        ensures { MatchResult result (λ done. WentByAct (IsTurnOf quantum (number % 2 == 0)) TURN_ENTRIES self.old self.new) (λ fault. fault ≡ Memory) }
    {
        self.turn_of(number, quantum)?;
        self.book.drop_entries();
        Ok(())
    }

    /// Does `turns` turns of the node and the host, one after the other.
    pub(crate) fn turns(&mut self, turns: u32, quantum: u16) -> Result<(), TryFault>
        requires quantum { quantum ≤ MAX_STEPS }
        requires lone { IsLone self.old }
        requires few { next_in_book self.old.book + TURN_ENTRIES * turns + 1 < NUMBER_LIMIT }
        ensures { MatchResult result (λ done. WentByAct (AreTurns quantum turns) (TURN_ENTRIES * turns) self.old self.new) (λ fault. fault ≡ Memory) }
    {
        for number in 0..turns {
            self.turn(number, quantum)?;
        }
        Ok(())
    }
}
