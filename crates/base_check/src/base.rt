ghost use Rattle.std.specs.Prelude.{◌≡◌, ◌++◌, All, IfErr, IfOk, map};
ghost use Rattle.alto_rows.specs.Good.{AreGood};
ghost use Rattle.alto_rows.specs.Rows.{AreSorted};
ghost use Rattle.base_code.specs.Bases.{write_of};
ghost use Rattle.batch_code.specs.Storable.{IsStored};
ghost use Rattle.base_check.specs.Rules.{Explains, KeepsRule};

use crate::receipts::keep_receipts;
use crate::rows::{keep_rows, puts_of};
use alto_rows::{Key, RowStore, Value};
use base_code::Kept;
use batch_check::{BookRule, CheckFault};
use std::alloc::Global;

/// The rows of a base, or that it breaks the rule. `first` are the rows of a new book, which stand before its own.
///
/// The rows are written once, as `RowStore::with` does; then each takes some searches, and each declared network and
/// metric a few more. Each receipt takes one search.
///
/// # Errors
///
/// `Bad` with `B6` exactly where the base breaks the rule, or `Memory`.
pub fn check_base<R: RowStore>(
    alloc: Global,
    first: &R,
    rows: Vec<(Key, Value)>,
    receipts: &[Kept],
) -> Result<R, CheckFault>
    requires good { AreGood (R.rows first.now) }
    requires sorted { AreSorted (R.rows first.now ++ rows.items) }
    requires stored { All (λ row. IsStored (write_of row)) rows.items }
    ensures whole { IfOk result (λ whole. R.rows whole ≡ R.rows first.now ++ rows.items) }
    ensures ok { IfOk result (λ whole. KeepsRule (R.rows first.now ++ rows.items) receipts.now) }
    ensures err { IfErr result (λ fault. Explains fault (R.rows first.now ++ rows.items) receipts.now) }
{
    if !keep_receipts(alloc, receipts)? {
        return Err(CheckFault::Bad(BookRule::B6));
    }
    let puts = puts_of(alloc, rows)?;
    let whole = first.with(alloc, &puts)?;
    if !keep_rows(alloc, first, &whole, &puts, receipts.len() as u64)? {
        return Err(CheckFault::Bad(BookRule::B6));
    }
    Ok(whole)
}
