ghost use Rattle.std.specs.Prelude.{◌≡◌, ◌≤◌, ◌++◌, [], ℕ, IfOk, length, option_copied};
ghost use Rattle.std.specs.List.{AllByRecursion, flat_map};
ghost use Rattle.alto_rows.specs.Changes.{AreOrdered, changed};
ghost use Rattle.alto_rows.specs.Rows.{Rows, AreSorted, IsRunOf};
ghost use Rattle.row_chunks.specs.Blocks.{first_key};
ghost use Rattle.row_chunks.specs.Cut.{rows_behind};
ghost use Rattle.row_chunks.specs.Shared.{AllShare};

use crate::change::Change;
use crate::cut::Cut;
use crate::shared::Shared;
use alto_rows::{Key, Value};
use std::alloc::{AllocError, Global};

/// Rows that may be shared: those of a chunk, or of a list of blocks. A contract sees them as one list.
pub(crate) trait Block: Drop {
    ghost rows: { Self → Rows };
    /// How many rows are in a block at most, where it is one of a list.
    ghost most: { ℕ };

    /// So many rows are in a block at least, where it is one of a list, others follow, and a write has touched it.
    fn few_rows() -> usize;

    /// No rows.
    fn empty(alloc: Global) -> Self
    where
        Self: Sized,
        ensures { rows result ≡ [] };

    /// How many rows there are. Takes constant time.
    fn len(&self) -> usize
        ensures { result ≡ length (rows self.now) };

    /// The key of the first row, if there is one. Takes constant time.
    fn first_key(&self) -> Option<&Key>
        ensures { option_copied result ≡ first_key (rows self.now) };

    /// The first rows that lie together: empty exactly where there are no rows. No search.
    fn first_run(&self) -> &[(Key, Value)]
        ensures { IsRunOf (rows self.now) result.now };

    /// The rows behind a cut that lie together, from the first such row on: empty exactly where there is none. One
    /// binary search a level, which doesn't compare what all rows are known to share with the cut.
    fn run_behind(&self, cut: &Cut, shared: Shared) -> &[(Key, Value)]
        requires sorted { AreSorted (rows self.now) }
        requires shared { AllShare cut.now shared (rows self.now) }
        ensures { IsRunOf (rows_behind cut.now (rows self.now)) result.now };

    /// How many rows are behind a cut. One binary search a level, which doesn't compare what all rows are known to
    /// share with the cut.
    fn count_behind(&self, cut: &Cut, shared: Shared) -> usize
        requires sorted { AreSorted (rows self.now) }
        requires shared { AllShare cut.now shared (rows self.now) }
        ensures { result ≡ length (rows_behind cut.now (rows self.now)) };

    /// These rows, and behind them those of another block after changes. One pass over that block and the changes:
    /// what no change touches is shared.
    fn with_changed(
        self,
        alloc: Global,
        block: &Self,
        changes: &[Change],
    ) -> Result<Self, AllocError>
    where
        Self: Sized,
        requires sorted { AreSorted (rows block.now) }
        requires ordered { AreOrdered changes.now }
        ensures { IfOk result (λ all. rows all ≡ rows self ++ changed (rows block.now) changes.now) };

    /// The same rows in blocks of about one size, none of them too large for a list. No row is copied.
    fn divided(self, alloc: Global) -> Result<Vec<Self>, AllocError>
    where
        Self: Sized,
        ensures whole { IfOk result (λ blocks. flat_map rows blocks.items ≡ rows self) }
        ensures small { IfOk result (λ blocks. AllByRecursion (λ block. length (rows block) ≤ most) blocks.items) };
}
