//! Laws of the model of devices. The functions do nothing; their contracts are the laws.

ghost use Rattle.std.specs.Prelude.{◌⊎◌, ◌↔◌, List, ℕ, [], ◌∷◌, true, false};
ghost use Rattle.tp_model.specs.Disk.{Moment, Call, MayBe, done, within, broken};
ghost use Rattle.tp_disk.specs.FileState.{told_reads};
ghost use Rattle.tp_disk.specs.History.{Reads, Writes, nothing_told};
ghost use Rattle.tp_disk.specs.Laws.{IsMomentInside};
ghost use Rattle.tp_disk.specs.Reads.{AreTrue};

use crate::disk::Disk;
use crate::memory::MemDisk;

/// A device in memory always meets the premise, whatever its plan.
pub fn memory_keeps(disk: &MemDisk)
    ensures { AreTrue (⟦<MemDisk as Disk>⟧.reads disk.now) }
{}

/// The premise on a file can be met, and it can fail. Of a file that begins with 7, it is met if a read of one byte gave 7, also after a write that
/// failed elsewhere; it isn't if that read gave 8.
pub fn file_may_keep()
    ensures met { AreTrue (told_reads 2 (record nothing_told { medium = record { first = 7 ∷ []; torn = [] }; calls = Writes 1 (9 ∷ []) false ∷ Reads 0 (7 ∷ []) true ∷ [] })) }
    ensures unmet { AreTrue (told_reads 2 (record nothing_told { medium = record { first = 7 ∷ []; torn = [] }; calls = Reads 0 (8 ∷ []) true ∷ [] })) → ⊥ }
{}

/// A crash within a call leaves only what a crash before it or after it may leave, and nothing less. After a call that broke, a crash may
/// leave exactly what one within it may. So the moments between the calls say all.
pub fn moments_within_calls()
    ensures is_done { (call : Call) (m : Moment) (left : List ℕ) → IsMomentInside call m
        → (MayBe m left ⊎ MayBe (done call m) left) ↔ MayBe (within call m) left }
    ensures is_broken { (call : Call) (m : Moment) (stood left : List ℕ) → MayBe (within call m) stood
        → MayBe (broken call stood m) left ↔ MayBe (within call m) left }
{}
