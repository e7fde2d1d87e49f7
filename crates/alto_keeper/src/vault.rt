ghost use Rattle.std.specs.Prelude.{◌≡◌, ◌≢◌, ℕ, Bool, List, IsTrue, IfOk, OnOk};
ghost use Rattle.alto_keeper.specs.Stored.{StoredData, Stays, faults_after, faults_closed};

use crate::fault::KeepFault;
use crate::keeper::Keeper;
use std::alloc::Global;

/// Records by their paths, which are opened and closed. It may fail, and counts how often it has. Of records in memory
/// what is held is known; of a file it may not be.
pub trait Vault {
    /// The records of one path, while they are open.
    type Keeper: Keeper + Drop;

    /// These are all the records that are held at a path.
    ghost holds: { Self → List ℕ → StoredData → Type 0 };

    /// Nothing has put in doubt what is held. What did so lasts.
    ghost is_clean: { Self → Type 0 };

    /// The paths that were opened.
    ghost knows: { Self → List ℕ → Bool };

    /// How many opens have failed, and how many keepers had failed when they were closed.
    ghost faults: { Self → ℕ };

    /// Opens the records at a path. A path that holds none yet is opened without any.
    fn open(&mut self, alloc: Global, path: &str) -> Result<Self::Keeper, KeepFault>
        ensures fresh { IfOk result (λ keeper. Self.Keeper.faults keeper ≡ 0) }

        ensures clean { is_clean self.new → is_clean self.old }
        ensures held { IfOk result (λ keeper. is_clean self.new
            → Stays (holds self.old path.now) (Self.Keeper.holds keeper)) }
        ensures stays { is_clean self.new → (other : List ℕ) → Stays (holds self.old other) (holds self.new other) }

        ensures known { OnOk result (IsTrue (knows self.new path.now)) }
        ensures remembered { (other : List ℕ) → IsTrue (knows self.old other) → IsTrue (knows self.new other) }

        ensures counted { faults self.new ≡ faults_after result (faults self.old) };

    /// Takes back what a keeper keeps, as what is held at the path.
    fn close(&mut self, path: &str, keeper: Self::Keeper)
        requires known { IsTrue (knows self.old path.now) }

        ensures clean { is_clean self.new → is_clean self.old × Self.Keeper.is_clean keeper }
        ensures kept { is_clean self.new → (before : StoredData) → holds self.old path.now before
            → Stays (Self.Keeper.holds keeper) (holds self.new path.now) }
        ensures others { is_clean self.new → (other : List ℕ) → other ≢ path.now
            → Stays (holds self.old other) (holds self.new other) }

        ensures remembered { (other : List ℕ) → IsTrue (knows self.old other) → IsTrue (knows self.new other) }

        ensures counted { faults self.new ≡ faults_closed (Self.Keeper.faults keeper) (faults self.old) };
}
