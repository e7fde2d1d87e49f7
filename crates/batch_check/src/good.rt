ghost use Rattle.std.specs.Prelude.{◌≡◌, All, Decides, IfOk};
ghost use Rattle.alto_rows.specs.Good.{AreGood};
ghost use Rattle.alto_rows.specs.Rows.{after};
ghost use Rattle.alto_edits.specs.Laws.{FitsBatch};
ghost use Rattle.batch_check.specs.Rules.{KeepsGood, KeepsVersions};

use crate::owners::keep_one_pid;
use crate::withdrawn::keep_declared;
use alto_rows::{RowStore, Write};
use std::alloc::{AllocError, Global};

/// Whether good rows are good after a batch whose writes fit and whose version rows are right. So each value fits its
/// key, and declared resources have versions: what the rows name and who has a prefix is left to look at.
pub fn keeps_good<R: RowStore>(
    alloc: Global,
    rows: &R,
    next: &R,
    writes: &[Write],
) -> Result<bool, AllocError>
    requires good { AreGood (R.rows rows.now) }
    requires fit { All FitsBatch writes.now }
    requires versions { KeepsVersions (R.rows rows.now) writes.now }
    requires next { R.rows next.now ≡ after (R.rows rows.now) writes.now }
    ensures { IfOk result (λ keeps. Decides keeps (KeepsGood (R.rows rows.now) writes.now)) }
{
    if !keep_declared(alloc, rows, next, writes)? {
        return Ok(false);
    }
    keep_one_pid(alloc, rows, next, writes)
}
