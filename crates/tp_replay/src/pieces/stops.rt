//! The first of the entries at which a part stopped.

ghost use Rattle.std.specs.Prelude.{◌≡◌, ◌≤◌, ◌<◌, IsTrue, ◌↔◌, MatchOption, All, Contains};

use rayon::prelude::*;
use std::thread::Threads;

/// Gives the least of the stops that is below `count`; `None` if none is. It searches the numbers below `count` in order, and none at all
/// without such a stop.
pub fn first_stop(rt: &(impl Threads + Sync), stops: &[usize], count: usize) -> Option<usize>
    ensures { MatchOption result (All (λ at. count ≤ at) stops.now)
        (λ k. (k < count) × Contains stops.now k × All (λ at. k ≤ at) stops.now) }
{
    if stops.iter().all(|&stop| count <= stop) {
        return None;
    }
    (0..count).into_par_iter().find_first(
        rt,
        |k: &usize| -> bool
            ensures { IsTrue result ↔ Contains stops.entry.now k.now }
        { stops.contains(k) },
    )
}
