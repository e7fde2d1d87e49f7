ghost use Rattle.std.specs.Prelude.{◌≡◌, All, IfErr, IfOk};
ghost use Rattle.alto_rows.specs.Good.{AreGood};
ghost use Rattle.alto_rows.specs.Rows.{after};
ghost use Rattle.alto_edits.specs.Laws.{FitsBatch};
ghost use Rattle.batch_check.specs.Rules.{Explains, KeepsRules};

use crate::good::keeps_good;
use crate::numbers::keeps_numbers;
use crate::rule::{BookRule, CheckFault};
use crate::versions::keeps_versions;
use alto_edits::Past;
use alto_rows::{RowStore, Write};
use std::alloc::Global;

/// The rows after a batch that keeps the rules B3 to B5, or the first of these that it breaks.
///
/// `past` is what is kept past the book's base before the batch. The rows are written once, as `RowStore::with` does;
/// then each write takes some searches, and each declared network and metric a few more. A batch that gives a prefix
/// to a PID takes a walk over the prefixes of its network, and one that withdraws a network, a PID, a metric or an
/// abstract network element one walk over all rows.
///
/// # Errors
///
/// `Bad` with the first rule that the batch breaks, or `Memory`.
pub fn check<R: RowStore>(
    alloc: Global,
    rows: &R,
    writes: &[Write],
    past: Past,
) -> Result<R, CheckFault>
    requires good { AreGood (R.rows rows.now) }
    requires fit { All FitsBatch writes.now }
    ensures next { IfOk result (λ next. R.rows next ≡ after (R.rows rows.now) writes.now) }
    ensures ok { IfOk result (λ next. KeepsRules (R.rows rows.now) writes.now past) }
    ensures err { IfErr result (λ fault. Explains fault (R.rows rows.now) writes.now past) }
{
    let next = rows.with(alloc, writes)?;
    if !keeps_versions(alloc, rows, &next, writes)? {
        return Err(CheckFault::Bad(BookRule::B3));
    }
    if !keeps_good(alloc, rows, &next, writes)? {
        return Err(CheckFault::Bad(BookRule::B4));
    }
    if !keeps_numbers(&next, writes, past)? {
        return Err(CheckFault::Bad(BookRule::B5));
    }
    Ok(next)
}
