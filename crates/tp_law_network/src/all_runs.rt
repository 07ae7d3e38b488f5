//! Runs of a network, its book, its snapshots and its device, with crashes at any moment. The functions do nothing; their
//! contracts are the laws.

ghost use Rattle.std.specs.Prelude.{◌≡◌, ◌≤◌, ◌<◌, ◌+◌, ◌++◌, ℕ, List, [], Option, Some, length, take};
ghost use Rattle.tp_law_network.specs.Lower.{AllByRecursion, Entry, NodeState, t414, Network, next, AreIndependent, MarkedNetwork, WholeCut, whole, IsWhole, Act, acted, IsOpened, CutHolds, IsWithin, MayBe, LeavesOnly, State, clear_calls, group_calls, put_calls, switch_calls, tail_calls, Areas, AreasHold, Held, next_number, Opened, Resting, Tail, AreWalked, RecoversTo, Walks, World, Event, Reopens, Step, Run, BeginsFormatted, Recovers, reopened, IsAcknowledged, IsShown};
ghost use Rattle.tp_law_network.specs.Small.{small_areas};
ghost use Rattle.tp_law_network.specs.SmallRun.{EachAnswers, Stores, one_port, made_world};

/// After each run, whatever a crash leaves holds the network after a prefix of the journal, and the prefix has each entry below a mark that
/// was ever read. Opening it goes on with the run. What the journal has below the mark at some moment, it has at each later one.
pub fn crashes_hold()
    ensures recovers { (areas : Areas NodeState) → AreasHold t414 areas → (start : Network NodeState) (events : List (Event NodeState)) (first last : World NodeState)
        → BeginsFormatted t414 areas start first → Run t414 areas first events last
        → (bytes : List ℕ) → MayBe last.disk bytes → Recovers t414 areas start last bytes }
    ensures stays { (areas : Areas NodeState) → AreasHold t414 areas → (start : Network NodeState) (before events : List (Event NodeState)) (first w last : World NodeState)
        → BeginsFormatted t414 areas start first → Run t414 areas first before w → Run t414 areas w events last
        → (w.mark ≤ last.mark) × (take w.mark last.journal ≡ take w.mark w.journal) }
    ensures goes_on { (areas : Areas NodeState) (start : Network NodeState) (last : World NodeState) (bytes : List ℕ) → MayBe last.disk bytes → (r : Recovers t414 areas start last bytes)
        → Step t414 areas last (Reopens bytes r.held r.now) (reopened last bytes r.held r.now) }
{}

/// The whole theorem. Neighbours that are independent may be swapped. Each whole cut is the network after the entries in it, which may come
/// first, also at each moment of a run with a flusher, a device, crashes and openings. After each run, whatever a crash leaves recovers. It
/// has the entries of each acknowledged receipt, and all causes of each output byte that is shown.
pub fn every_run_holds()
    ensures swaps { (s : Network NodeState) (e f : Entry) → (i : AreIndependent t414 s e f)
        → (next t414 s f ≡ Some i.other) × (next t414 i.other e ≡ Some i.last) }
    ensures cut { (w v : MarkedNetwork NodeState) → IsOpened t414 w → (acts : List Act) → acted t414 w acts ≡ Some v
        → (cut : WholeCut) → whole v ≡ Some cut → CutHolds t414 v cut }
    ensures whole { (w v : MarkedNetwork NodeState) → IsOpened t414 w → (acts : List Act) → acted t414 w acts ≡ Some v
        → ((cut : WholeCut) → whole v ≡ Some cut → IsWhole v) × (IsWhole v → (cut : WholeCut) × (whole v ≡ Some cut)) }
    ensures snapshots { (areas : Areas NodeState) → AreasHold t414 areas → (start : Network NodeState) (events : List (Event NodeState)) (first last : World NodeState)
        → BeginsFormatted t414 areas start first → Run t414 areas first events last
        → (cut : WholeCut) → whole last.net ≡ Some cut → CutHolds t414 last.net cut }
    ensures recovers { (areas : Areas NodeState) → AreasHold t414 areas → (start : Network NodeState) (events : List (Event NodeState)) (first last : World NodeState)
        → BeginsFormatted t414 areas start first → Run t414 areas first events last
        → (bytes : List ℕ) → MayBe last.disk bytes → Recovers t414 areas start last bytes }
    ensures acknowledged { (areas : Areas NodeState) → AreasHold t414 areas → (start : Network NodeState) (before : List (Event NodeState)) (first made last : World NodeState)
        → BeginsFormatted t414 areas start first → Run t414 areas first before made → (number : ℕ) → number ≤ length made.journal → IsAcknowledged t414 areas number made last
        → (bytes : List ℕ) → MayBe last.disk bytes → (r : Recovers t414 areas start last bytes)
        → (number ≤ next_number r.held) × (take number last.journal ≡ take number made.journal) }
    ensures shown { (areas : Areas NodeState) → AreasHold t414 areas → (start : Network NodeState) (first last : World NodeState) → BeginsFormatted t414 areas start first
        → (number line port byte : ℕ) → (s : IsShown t414 areas number line port byte first last)
        → (bytes : List ℕ) → MayBe last.disk bytes → (r : Recovers t414 areas start last bytes)
        → (number < next_number r.held) × (take (number + 1) last.journal ≡ take (number + 1) s.reading.journal) }
{}

/// A format can meet what the laws of runs ask of it: a small format does. Each of its functions answers something, and on a device made
/// with it a run stores an entry.
pub fn areas_can_hold()
    ensures hold { (image : ℕ → Network NodeState) → AreasHold t414 (small_areas t414 image) }
    ensures answers { (image : ℕ → Network NodeState) → EachAnswers t414 image }
    ensures formatted { BeginsFormatted t414 (small_areas t414 (λ code. one_port)) one_port (made_world (λ code. one_port)) }
    ensures stores { (x : ℕ) → Stores t414 (λ code. one_port) x }
{}

/// Whatever a call of the store does to the device is a piece of a run without an opening. Each moment of the device is that of a world on
/// the way. If all its device calls were done, it leads to the world in which its work is done. If one of them failed, or the run stopped
/// in it, only the device and the flusher's position have changed.
pub fn store_calls_walk()
    ensures group { (areas : Areas NodeState) (w : World NodeState) (old new : State) (es more : List Entry) (gate : ℕ) (body : List ℕ)
        → w.at ≡ Resting → w.disk ≡ old.now → w.backlog ≡ es ++ more → areas.group w.disk.bytes es ≡ Some (gate, body)
        → AreWalked t414 areas (group_calls gate body) w (record w { stored = w.stored + length es; backlog = more }) old new }
    ensures cleared { (areas : Areas NodeState) (w : World NodeState) (old new : State) (gate : Option ℕ)
        → w.at ≡ Resting → w.disk ≡ old.now → areas.open_other w.disk.bytes ≡ gate → AreWalked t414 areas (clear_calls gate) w w old new }
    ensures pieces { (areas : Areas NodeState) → AreasHold t414 areas → (w : World NodeState) (old new : State) (h : Held NodeState) (pieces : List (ℕ × List ℕ))
        → w.at ≡ Resting → w.disk ≡ old.now → areas.verdict w.disk.bytes ≡ Some h → AllByRecursion (λ piece. IsWithin (areas.spare w.disk.bytes) (piece.0, length piece.1)) pieces
        → AreWalked t414 areas (put_calls pieces) w w old new }
    ensures tail { (areas : Areas NodeState) → AreasHold t414 areas → (w : World NodeState) (old new : State) (h copy : Held NodeState) (upto : ℕ) (pieces : List (ℕ × List ℕ))
        → w.at ≡ Tail copy upto → w.disk ≡ old.now → areas.verdict w.disk.bytes ≡ Some h → AllByRecursion (λ piece. IsWithin (areas.spare w.disk.bytes) (piece.0, length piece.1)) pieces
        → AreWalked t414 areas (tail_calls pieces) w w old new }
    ensures switched { (areas : Areas NodeState) (w : World NodeState) (old new : State) (copy : Held NodeState) (upto gate : ℕ)
        → w.at ≡ Tail copy upto → w.disk ≡ old.now → w.disk.unsynced ≡ [] → areas.other w.disk.bytes ≡ Some (gate, copy)
        → AreWalked t414 areas (switch_calls gate) w (record w { at = Opened copy upto; stored = upto }) old new }
{}

/// Pieces of a run follow one another. In a run that began with a formatted device, let a crash come at any moment of such a piece. It
/// leaves only what holds the network after a prefix of the journal, and that prefix has each entry below the mark before the piece.
pub fn walks_recover()
    ensures joined { (areas : Areas NodeState) (w u v : World NodeState) (old mid new : State)
        → Walks t414 areas w u old mid → Walks t414 areas u v mid new → Walks t414 areas w v old new }
    ensures leave { (areas : Areas NodeState) → AreasHold t414 areas → (start : Network NodeState) (before : List (Event NodeState)) (first w v : World NodeState) (old new : State)
        → BeginsFormatted t414 areas start first → Run t414 areas first before w → Walks t414 areas w v old new
        → LeavesOnly old new (RecoversTo t414 areas start v.journal w.mark) }
{}
