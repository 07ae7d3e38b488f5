//! Laws of a device's places and of its rest. The functions do nothing; their contracts are the laws.

ghost use Rattle.std.specs.Prelude.{◌≡◌, ◌≤◌, ◌<◌, ◌+◌, ◌*◌, ℕ, List, false, true, length, Some, None, Ok};
ghost use Rattle.tp_area.specs.Lower.{AllByRecursion, Entry, IsSpelt, entry_room, is_roomy, room, Topology, NodeState, IsWithin, MayBe, IsSynced, State, Held, device_areas, t414, Opened, held_of, verdict, HasCut, World, copy_of, Called, put_calls, Walks, WholeCut, Resting};
ghost use Rattle.tp_area.specs.declared.place.Place.{Place};
ghost use Rattle.tp_area.specs.Appended.{append_refusal};
ghost use Rattle.tp_area.specs.Crashes.{StandsOpened, RestsAs};
ghost use Rattle.tp_area.specs.Checkpointed.{checkpointed};
ghost use Rattle.tp_area.specs.Other.{Cleared, Switched, other_gate};
ghost use Rattle.tp_area.specs.Places.{place_at, place_in};
ghost use Rattle.tp_area.specs.Tails.{TailParts, TailPut, tail_pieces, tail_refusal};

/// A device that opens says the place of its next group: it has what `Store::new` needs.
pub fn open_devices_say_their_place()
    ensures { (bytes : List ℕ) (o : Opened) → verdict bytes ≡ Ok o → place_in bytes ≡ Some (place_at o) }
{}

/// A device that opens and is synced rests, as it does after opening. Whatever a crash leaves of one that rests opens as it did.
pub fn resting_devices_open_alike()
    ensures synced { (s : State) (o : Opened) → verdict s.now.bytes ≡ Ok o → IsSynced s → RestsAs (held_of o) s }
    ensures alike { (h : Held NodeState) (s : State) → RestsAs h s → (left : List ℕ) → MayBe s.now left → StandsOpened h left }
{}

/// What has room in the journal, each entry in a group of its own, always fits. That includes a group after the ones that a device holds,
/// and the tail of a checkpoint.
pub fn entries_with_room_fit()
    ensures appended { (bytes : List ℕ) (o : Opened) (count : ℕ) → AllByRecursion (λ byte. byte < 256) bytes → verdict bytes ≡ Ok o → 1 ≤ count
        → entry_room * (length o.kept + count) ≤ room o.head.topology o.head.areas.length → append_refusal false (place_at o) count ≡ None }
    ensures put { (t : Topology) (place : Place) (entries : List (Entry × ℕ)) → is_roomy t place.areas.length ≡ true → AllByRecursion (λ e. IsSpelt e.0 e.1) entries
        → entry_room * length entries ≤ room t place.areas.length → tail_refusal false place t entries ≡ None }
{}

/// The calls of a checkpoint, one after the other, are a piece of a run without an opening. It begins in a world in which the flusher rests
/// and a cut is whole. The other area is cleared, pieces of images are put there, then the rest, and its gate is opened.
///
/// The run copies the cut with its tail before the rest is put, and trims the book after the last sync. If the area then holds the copy, so
/// does the device, the cut is the kept one, and all entries are stored.
pub fn checkpoints_walk()
    ensures { (w : World NodeState) (o : Opened) (cut : WholeCut) (nodes : List NodeState) (t : Topology) (p : TailParts) (pieces : List (ℕ × List ℕ)) (rested cleared put filled switched : State)
        → w.at ≡ Resting → w.disk ≡ rested.now → HasCut w.net cut nodes → verdict rested.now.bytes ≡ Ok o → RestsAs (held_of o) rested → Cleared (place_at o) rested cleared
        → AllByRecursion (λ piece. IsWithin (device_areas.spare cleared.now.bytes) (piece.0, length piece.1)) pieces → Called (put_calls pieces) cleared put
        → AllByRecursion (λ piece. IsWithin (device_areas.spare put.now.bytes) (piece.0, length piece.1)) (tail_pieces (other_gate (place_at o) + 1) t (o.generation + 1) p)
        → TailPut (place_at o) t p put filled → device_areas.other filled.now.bytes ≡ Some (other_gate (place_at o), copy_of w.net w.base cut nodes) → Switched (place_at o) filled switched
        → Walks t414 device_areas w (checkpointed w cut nodes switched) rested switched × RestsAs (copy_of w.net w.base cut nodes) switched }
{}
