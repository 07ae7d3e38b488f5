//! Which nodes each of several workers gets.

ghost use Rattle.std.specs.Prelude.{◌≡◌, ◌+◌, ◌<◌, ◌≤◌, ℕ};
ghost use Rattle.tp_law_network.specs.Piece.{Covers};
ghost use Rattle.tp_replay.specs.Dealt.{dealt, first_of};

/// A run of neighbours among the nodes: the first one, and how many there are.
#[derive(Clone, Copy)]
pub struct Neighbours {
    pub first: u8,
    pub count: u8,
}

/// Gives the node at which a worker's run begins. For the number of workers that is where the last run ends.
#[tactic(auto, using(crate::proofs::Dealt::first_most))]
fn first_of(nodes: u8, workers: u8, worker: u8) -> u8
    requires { (worker ≤ workers) × (0 < workers) }
    ensures { result ≡ first_of nodes workers worker }
{
    (u16::from(worker) * u16::from(nodes) / u16::from(workers)) as u8
}

/// Gives the nodes of a worker. With fewer nodes than workers there may be none.
#[tactic(auto, using(crate::proofs::Dealt::first_up))]
pub fn neighbours_of(nodes: u8, workers: u8, worker: u8) -> Neighbours
    requires { worker < workers }
    ensures first { result.first ≡ first_of nodes workers worker }
    ensures end { result.first + result.count ≡ first_of nodes workers (worker + 1) }
{
    let first = first_of(nodes, workers, worker);
    let end = first_of(nodes, workers, worker + 1);
    Neighbours {
        first,
        count: end - first,
    }
}

/// Each number is in the piece of some worker or in the host's, which is the last.
pub fn dealt_pieces_cover()
    ensures { (nodes workers : ℕ) → 0 < workers → Covers (workers + 1) (dealt nodes workers) }
{}
