ghost use Rattle.std.specs.Prelude.{◌≡◌, Decides, IfOk, map};
ghost use Rattle.alto_rows.specs.Good.{AreGood};
ghost use Rattle.alto_rows.specs.Rows.{after};
ghost use Rattle.base_code.specs.Bases.{write_of};
ghost use Rattle.base_check.specs.Fit.{AreFit};
ghost use Rattle.base_check.specs.Rules.{KeepRows};

use crate::numbered::some_misnumbered;
use alto_rows::{Key, RowStore, Value, Write};
use batch_check::{are_within, keep_declared, keep_one_pid};
use std::alloc::{AllocError, Global};

/// The writes that put rows.
pub(crate) fn puts_of(alloc: Global, rows: Vec<(Key, Value)>) -> Result<Vec<Write>, AllocError>
    ensures { IfOk result (λ puts. puts.items ≡ map write_of rows.items) }
{
    let mut puts = Vec::with_capacity(alloc, rows.len())?;
    for row in rows {
        puts.push(put_of(row))?;
    }
    Ok(puts)
}

/// The write that puts a row.
fn put_of(row: (Key, Value)) -> Write
    ensures { result ≡ write_of row }
{
    let (key, value) = row;
    Write {
        key,
        value: Some(value),
    }
}

/// Whether good rows, with these puts, are rows to which so many batches may have led, where each value fits its key.
/// So it is left to look at what the rows name, who has a prefix, at versions and at the numbers.
pub(crate) fn keep_rows<R: RowStore>(
    alloc: Global,
    first: &R,
    whole: &R,
    puts: &[Write],
    number: u64,
) -> Result<bool, AllocError>
    requires good { AreGood (R.rows first.now) }
    requires whole { R.rows whole.now ≡ after (R.rows first.now) puts.now }
    requires fit { AreFit (R.rows whole.now) }
    ensures { IfOk result (λ keep. Decides keep (KeepRows (R.rows whole.now) number)) }
{
    if !keep_declared(alloc, first, whole, puts)? {
        return Ok(false);
    }
    if !keep_one_pid(alloc, first, whole, puts)? {
        return Ok(false);
    }
    if some_misnumbered(whole, number)? {
        return Ok(false);
    }
    are_within(whole)
}
