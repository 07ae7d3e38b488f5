//! When a stream is over.

ghost use Rattle.std.specs.Prelude.{◌≡◌, ◌++◌, ◌&&◌, ◌||◌, not, true, nat_lt, IfSome};
ghost use Rattle.tp_stream.specs.Lower.{list_all, is_over};
ghost use Rattle.tp_stream.specs.Endings.{IsEnding, ending_of, is_bound_reached};
ghost use Rattle.tp_stream.specs.Looks.{is_stopped, looked};

use crate::pumping::Pumped;
use crate::task::Task;
use crate::turns::Turns;
use tp_stream_files::{Ending, Input, Source, Stop};

/// Whether each input has no more bytes that its port may take.
pub(crate) fn are_over<I: Source>(inputs: &[Input<I>]) -> bool
    ensures { result ≡ list_all (λ i. is_over i.ended i.is_blocked) inputs.now }
{
    for input in inputs {
        if !input.is_over() {
            return false;
        }
    }
    true
}

/// Whether a step of an input may wait. It may if another turn may be made, nothing is left to do, and the stream has nothing else to do meanwhile.
pub(crate) fn may_wait(task: Task, turns: &Turns, nodes: u8) -> bool
    ensures { result ≡ (not (task.until_asked || task.tells) && not (is_bound_reached task turns.now) && not (task.stop_on_halt && turns.now.has_halted) && nat_lt nodes turns.now.idle) }
{
    !task.rests() && !turns.are_out(task) && !turns.is_stopped(task) && turns.is_quiet(nodes)
}

/// Whether the stream is asked to stop. It checks once if the task says so, else it doesn't check.
pub(crate) fn is_asked<P: Stop>(task: Task, stop: &mut P) -> bool
    ensures looked { P.answers stop.new ≡ P.answers stop.old ++ looked task result }
    ensures asked { result ≡ true → task.until_asked ≡ true }
{
    task.until_asked && stop.is_asked()
}

/// Gives why the stream is over; `None` if it goes on. `pumped` is what the steps of its streams came to after the turns. `asked` says whether it was
/// asked to stop, which comes before all other reasons, and `over` whether no input is left that its port may take.
pub(crate) fn ending(
    task: Task,
    turns: &Turns,
    nodes: u8,
    asked: bool,
    pumped: Pumped,
    over: bool,
) -> Option<Ending>
    ensures value { result ≡ ending_of task turns.now nodes asked pumped over }
    ensures why { IfSome result (IsEnding task turns.now nodes asked pumped over) }
    ensures stopped { is_stopped result ≡ asked }
{
    let is_quiet = turns.is_quiet(nodes) && pumped == Pumped::Nothing && over;
    if asked {
        Some(Ending::Stopped)
    } else if turns.is_stopped(task) {
        Some(Ending::Halted)
    } else if pumped == Pumped::Gone {
        Some(Ending::Gone)
    } else if is_quiet && task.until_quiet {
        Some(Ending::Quiet)
    } else if is_quiet && task.turns.is_none() {
        Some(Ending::Gone)
    } else if turns.are_out(task) {
        Some(Ending::Turns)
    } else {
        None
    }
}
