ghost use Rattle.std.specs.Prelude.{ℕ, ◌≡◌, ◌≤ℤ◌, pos, map, IfOk, OnOk, OnErr, vec_items};
ghost use Rattle.alto_keeper.specs.Stored.{StoredData, IsNext, with_row, rebased, faults_after, Stays};
ghost use Rattle.alto_keeper.specs.Stored.{IsKept, IsKeptOrAdded, IsKeptOrRebased, LeavesFrom, LeavesOnly};

use crate::fault::KeepFault;
use crate::stored::Stored;
use std::alloc::Global;

/// A place for records. It may fail, and counts how often it has; a call that fails leaves what is kept. Of records in
/// memory all this is so; of a file, while nothing has put it in doubt.
///
/// What a crash may leave is told also once a fault has put a place in doubt, while it gives back what was written:
/// what was kept, or that with what the call was to do which met the fault. After an Ok it is what is kept, and nothing
/// else.
pub trait Keeper {
    /// These are all the records that are kept.
    ghost holds: { Self → StoredData → Type 0 };

    /// Nothing has put in doubt what is kept. What did so lasts.
    ghost is_clean: { Self → Type 0 };

    /// The place has given back what was written so far, though a fault may have shut it. What broke this lasts.
    ghost is_faithful: { Self → Type 0 };

    /// A crash now may leave these records.
    ghost may_leave: { Self → StoredData → Type 0 };

    /// How many calls have failed.
    ghost faults: { Self → ℕ };

    /// All that is kept: the base and the rows behind it.
    fn load(&mut self, alloc: Global) -> Result<Stored, KeepFault>
        ensures clean { is_clean self.new → is_clean self.old }
        ensures loaded { IfOk result (λ all. is_clean self.new → (kept : StoredData) → holds self.old kept
            → all ≡ kept) }
        ensures stays { is_clean self.new → Stays (holds self.old) (holds self.new) }
        ensures faithful { is_faithful self.new → is_faithful self.old }
        ensures left { is_faithful self.new → LeavesFrom (may_leave self.old) (holds self.old) (is_clean self.old)
            IsKept (may_leave self.new) }
        ensures settled { OnOk result (is_faithful self.new → is_clean self.old × ((kept : StoredData)
            → holds self.old kept → is_clean self.new × LeavesOnly (may_leave self.new) kept)) }
        ensures counted { faults self.new ≡ faults_after result (faults self.old) };

    /// Adds a row behind the others, where its number is 0 or more, and above theirs.
    fn append(&mut self, alloc: Global, n: i64, bytes: &[u8]) -> Result<(), KeepFault>
        ensures clean { is_clean self.new → is_clean self.old }
        ensures added { OnOk result (is_clean self.new → (kept : StoredData) → holds self.old kept → IsNext kept n
            → holds self.new (with_row n bytes.now kept)) }
        ensures refused { OnErr result (is_clean self.new → Stays (holds self.old) (holds self.new)) }
        ensures faithful { is_faithful self.new → is_faithful self.old }
        ensures left { is_faithful self.new → LeavesFrom (may_leave self.old) (holds self.old) (is_clean self.old)
            (IsKeptOrAdded n bytes.now) (may_leave self.new) }
        ensures settled { OnOk result (is_faithful self.new → is_clean self.old × ((kept : StoredData)
            → holds self.old kept → IsNext kept n
            → is_clean self.new × LeavesOnly (may_leave self.new) (with_row n bytes.now kept))) }
        ensures counted { faults self.new ≡ faults_after result (faults self.old) };

    /// Puts another base in place of the one before, which takes in the rows with the numbers 1 to `upto`.
    fn rebase(&mut self, alloc: Global, pieces: &[Vec<u8>], upto: i64) -> Result<(), KeepFault>
        requires upto { pos 0 ≤ℤ upto }
        ensures clean { is_clean self.new → is_clean self.old }
        ensures rebased { OnOk result (is_clean self.new → (kept : StoredData) → holds self.old kept
            → holds self.new (rebased (map vec_items pieces.now) upto kept)) }
        ensures refused { OnErr result (is_clean self.new → Stays (holds self.old) (holds self.new)) }
        ensures faithful { is_faithful self.new → is_faithful self.old }
        ensures left { is_faithful self.new → LeavesFrom (may_leave self.old) (holds self.old) (is_clean self.old)
            (IsKeptOrRebased (map vec_items pieces.now) upto) (may_leave self.new) }
        ensures settled { OnOk result (is_faithful self.new → is_clean self.old × ((kept : StoredData)
            → holds self.old kept
            → is_clean self.new × LeavesOnly (may_leave self.new) (rebased (map vec_items pieces.now) upto kept))) }
        ensures counted { faults self.new ≡ faults_after result (faults self.old) };

    // A place in no doubt is faithful.
    ghost faithful_if_clean: { (keeper : Self) → is_clean keeper → is_faithful keeper };

    // A crash leaves something.
    ghost leaves_some: { (keeper : Self) → is_faithful keeper → ∥ ((found : StoredData) × may_leave keeper found) ∥₁ };
}
