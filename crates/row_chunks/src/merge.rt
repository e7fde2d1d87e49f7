ghost use Rattle.std.specs.Prelude.{◌≡◌, ◌++◌, IfOk, length};
ghost use Rattle.std.specs.List.Sorted.{IsSearchInRange};
ghost use Rattle.alto_rows.specs.Changes.{AreOrdered, changed, own_row};
ghost use Rattle.alto_rows.specs.Place.{place_of, rows_before};
ghost use Rattle.alto_rows.specs.Rows.{AreSorted, rows_past};

use crate::change::Change;
use crate::copies::{copy_of_key, copy_of_row, copy_of_value};
use alto_rows::{Key, Value};
use std::alloc::AllocError;
use std::cmp::Ordering;

/// Rows with others behind them, those of a chunk after changes. One pass over both, and for each change a comparison
/// or, where rows stand before its key, one search.
pub(crate) fn with_changed(
    done: Vec<(Key, Value)>,
    rows: &[(Key, Value)],
    changes: &[Change],
) -> Result<Vec<(Key, Value)>, AllocError>
    requires sorted { AreSorted rows.now }
    requires ordered { AreOrdered changes.now }
    ensures { IfOk result (λ all. all.items ≡ done.items ++ changed rows.now changes.now) }
{
    let mut all = done;
    all.reserve(rows.len().saturating_add(changes.len()))?;
    let mut rest = rows;
    for change in changes {
        let (head, past) = split_round(rest, change.key());
        all = with_copies(all, head)?;
        all = with_own(all, change)?;
        rest = past;
    }
    with_copies(all, rest)
}

/// The rows before a key, and those behind it.
fn split_round<'a>(rows: &'a [(Key, Value)], key: &Key) -> (&'a [(Key, Value)], &'a [(Key, Value)])
    requires { AreSorted rows.now }
    ensures before { result.0.now ≡ rows_before rows.now key.now }
    ensures past { result.1.now ≡ rows_past rows.now key.now }
{
    match place(rows, key) {
        Ok(at) => (&rows[..at], &rows[at + 1..]),
        Err(at) => (&rows[..at], &rows[at..]),
    }
}

/// The place of a key's row, or where it would go. One comparison where that is the first place, else a binary search.
fn place(rows: &[(Key, Value)], key: &Key) -> Result<usize, usize>
    requires { AreSorted rows.now }
    ensures place { result ≡ place_of rows.now key.now }
    ensures within { IsSearchInRange result (length rows.now) }
{
    let Some(first) = rows.first() else {
        return Err(0);
    };
    match key.cmp(&first.0) {
        Ordering::Less => Err(0),
        Ordering::Equal => Ok(0),
        Ordering::Greater => rows.binary_search_by(|row| row.0.cmp(key)),
    }
}

/// Rows with the row of a change behind them, if it has a value.
fn with_own(done: Vec<(Key, Value)>, change: &Change) -> Result<Vec<(Key, Value)>, AllocError>
    ensures { IfOk result (λ all. all.items ≡ done.items ++ own_row change.now.0 change.now.1) }
{
    let Some(value) = copy_of_value(change.value())? else {
        return Ok(done);
    };
    let mut all = done;
    all.push((copy_of_key(change.key())?, value))?;
    Ok(all)
}

/// Rows with copies of others behind them.
fn with_copies(
    done: Vec<(Key, Value)>,
    rows: &[(Key, Value)],
) -> Result<Vec<(Key, Value)>, AllocError>
    ensures { IfOk result (λ all. all.items ≡ done.items ++ rows.now) }
{
    let mut all = done;
    for row in rows {
        all.push(copy_of_row(&row.0, &row.1)?)?;
    }
    Ok(all)
}
