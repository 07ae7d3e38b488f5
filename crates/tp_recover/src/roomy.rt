//! Room for what a book gives.

ghost use Rattle.std.specs.Prelude.{◌≡◌, ◌+◌, ◌<◌, ◌≤◌, ℕ, List, length, false, Some, None, Ok};
ghost use Rattle.tp_recover.specs.Lower.{AllByRecursion, Entry, IsSpelt, room, Opened, verdict, FitsRoom, Place, append_refusal, place_at, tail_refusal};

/// What a book gives finds room in the store over its device, if the book is bound to the device's room (`Opened::journal_room`). Neither a
/// group of the next entries, after those that the device holds, nor the tail of a whole cut is too long for the store. The function does
/// nothing; its contract is the law.
pub fn books_find_room()
    ensures appended { (bytes : List ℕ) (o : Opened) (floor entries count : ℕ) → AllByRecursion (λ byte. byte < 256) bytes → verdict bytes ≡ Ok o
        → FitsRoom (Some (room o.head.topology o.head.areas.length)) floor entries → floor ≤ length o.kept → 1 ≤ count → length o.kept + count ≤ entries
        → append_refusal false (place_at o) count ≡ None }
    ensures put { (bytes : List ℕ) (o : Opened) (place : Place) (tail : List (Entry × ℕ)) → verdict bytes ≡ Ok o → place.areas ≡ o.head.areas → AllByRecursion (λ e. IsSpelt e.0 e.1) tail
        → FitsRoom (Some (room o.head.topology o.head.areas.length)) 0 (length tail) → tail_refusal false place o.head.topology tail ≡ None }
{}
