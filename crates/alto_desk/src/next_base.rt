//! The parts of a base that takes in the batches behind it.
ghost use Rattle.std.specs.Prelude.{◌≡◌, ◌<◌, ◌^◌, [], ◌∷◌, ◌++◌, IfOk, OnOk, filter, length, map, not};
ghost use Rattle.std.specs.Arc.{arc_value};
ghost use Rattle.alto_rows.specs.Rows.{after};
ghost use Rattle.alto_book.specs.Book as book;
ghost use Rattle.alto_book.specs.Book.{writes_in};
ghost use Rattle.alto_desk.specs.Ledger.{receipt_of};
ghost use Rattle.alto_desk.specs.Trim as trimming;

use crate::opening::MOST_RECEIPTS;
use alto_rows::{Batch, Key, RowStore, Value, walk_from};
use base_code::{Base, Kept};
use std::alloc::{AllocError, Global};
use std::sync::Arc;

/// The base that has taken in the batches behind it: its rows, and what is stored of it.
///
/// Costs what the store's `with` costs for each batch, a walk over the rows, and a copy of each receipt.
pub(crate) fn next_base<R: RowStore>(
    alloc: Global,
    base: &R,
    receipts: &[Kept],
    batches: &[Arc<Batch>],
) -> Result<(Arc<R>, Base), AllocError>
    ensures rows { IfOk result (λ next.
        R.rows (arc_value next.0) ≡ after (R.rows base.now) (writes_in (map arc_value batches.now))) }
    ensures stored { IfOk result (λ next.
        next.1.rows ≡ filter (λ row. not (trimming.is_opening row.0)) (R.rows (arc_value next.0))) }
    ensures receipts { IfOk result (λ next.
        map receipt_of next.1.receipts ≡ map receipt_of receipts.now ++ map book.kept_of (map arc_value batches.now)) }
    ensures number { IfOk result (λ next. next.1.b ≡ length next.1.receipts) }
    ensures few { IfOk result (λ next. length next.1.receipts < 2 ^ 62) }
{
    let whole = rows_after(alloc, base, batches)?;
    let receipts = receipts_after(alloc, receipts, batches)?;
    let rows = stored_rows(alloc, &whole)?;
    let stored = Base {
        b: receipts.len() as u64,
        receipts,
        rows,
    };
    Ok((Arc::new(alloc, whole)?, stored))
}

/// The rows after batches.
fn rows_after<R: RowStore>(alloc: Global, base: &R, batches: &[Arc<Batch>]) -> Result<R, AllocError>
    ensures { IfOk result (λ rows. R.rows rows ≡ after (R.rows base.now) (writes_in (map arc_value batches.now))) }
{
    let mut rows = base.with(alloc, &[])?;
    for batch in batches {
        rows = rows_with(alloc, &rows, batch)?;
    }
    Ok(rows)
}

/// The rows after one batch.
pub(crate) fn rows_with<R: RowStore>(
    alloc: Global,
    rows: &R,
    batch: &Batch,
) -> Result<R, AllocError>
    ensures { IfOk result (λ next. R.rows next ≡ after (R.rows rows.now) batch.now.writes) }
{
    rows.with(alloc, &batch.writes)
}

/// Copies of the rows that a base stores: all but the epoch and the window. A walk over all rows.
fn stored_rows<R: RowStore>(alloc: Global, rows: &R) -> Result<Vec<(Key, Value)>, AllocError>
    ensures { IfOk result (λ stored. stored.items ≡ filter (λ row. not (trimming.is_opening row.0)) (R.rows rows.now)) }
{
    let mut stored = Vec::with_capacity(alloc, rows.len())?;
    for row in walk_from(rows, &Key::Epoch) {
        add_stored(&mut stored, row)?;
    }
    Ok(stored)
}

/// Adds a copy of a row, where a base stores it.
fn add_stored(stored: &mut Vec<(Key, Value)>, row: &(Key, Value)) -> Result<(), AllocError>
    ensures { OnOk result (stored.new.items
        ≡ stored.old.items ++ filter (λ row. not (trimming.is_opening row.0)) (row.now ∷ [])) }
{
    if is_opening(&row.0) {
        return Ok(());
    }
    stored.push(copy_of_row(row)?)?;
    Ok(())
}

/// Whether a key is of a row that each book begins with.
fn is_opening(key: &Key) -> bool
    ensures { result ≡ trimming.is_opening key.now }
{
    matches!(key, Key::Epoch | Key::Window)
}

/// A copy of a row. It shares the names.
fn copy_of_row(row: &(Key, Value)) -> Result<(Key, Value), AllocError>
    ensures { IfOk result (λ copy. copy ≡ row.now) }
{
    Ok((row.0.clone()?, row.1.clone()?))
}

/// The receipts of a base with those of the batches behind it.
fn receipts_after(
    alloc: Global,
    receipts: &[Kept],
    batches: &[Arc<Batch>],
) -> Result<Vec<Kept>, AllocError>
    ensures all { IfOk result (λ all.
        map receipt_of all.items ≡ map receipt_of receipts.now ++ map book.kept_of (map arc_value batches.now)) }
    ensures few { IfOk result (λ all. length all.items < 2 ^ 62) }
{
    let mut all = copies_of(alloc, receipts)?;
    for batch in batches {
        all.push(kept_of(batch)?)?;
    }
    // No memory holds so many.
    if all.len() >= MOST_RECEIPTS {
        return Err(AllocError);
    }
    Ok(all)
}

/// Copies of receipts.
fn copies_of(alloc: Global, receipts: &[Kept]) -> Result<Vec<Kept>, AllocError>
    ensures { IfOk result (λ copies. copies.items ≡ receipts.now) }
{
    let mut copies = Vec::with_capacity(alloc, receipts.len())?;
    for kept in receipts {
        copies.push(copy_of(kept)?)?;
    }
    Ok(copies)
}

/// A copy of a receipt.
fn copy_of(kept: &Kept) -> Result<Kept, AllocError>
    ensures { IfOk result (λ copy. copy ≡ kept.now) }
{
    Ok(Kept {
        id: kept.id.clone()?,
        digest: kept.digest,
        moment: kept.moment,
    })
}

/// The receipt of a batch.
fn kept_of(batch: &Batch) -> Result<Kept, AllocError>
    ensures { IfOk result (λ kept. receipt_of kept ≡ book.kept_of batch.now) }
{
    Ok(Kept {
        id: batch.id.clone()?,
        digest: batch.digest,
        moment: batch.moment,
    })
}
