ghost use Rattle.std.specs.Prelude.{◌≡◌, Decides, IfOk, true};
ghost use Rattle.std.specs.BTreeSet.{Updates, contains};
ghost use Rattle.std.specs.List.{list_any};
ghost use Rattle.alto_rows.specs.Good.{AreGood};
ghost use Rattle.alto_rows.specs.Order.{key_cmp};
ghost use Rattle.alto_rows.specs.Rows.{after};
ghost use Rattle.batch_check.specs.Named as told;
ghost use Rattle.batch_check.specs.Named.{AreDeclared, AreWithdrawn};

use crate::lookup::has_row;
use crate::needs::{needs, puts_orphan};
use alto_rows::{Key, RowStore, Value, Write, walk_from};
use std::alloc::{AllocError, Global};
use std::collections::BTreeSet;

/// Whether what rows name stays declared after a batch. Some searches for each write, and a walk over all rows where
/// the batch withdraws a network, a PID, a metric or an abstract network element.
pub fn keep_declared<R: RowStore>(
    alloc: Global,
    rows: &R,
    next: &R,
    writes: &[Write],
) -> Result<bool, AllocError>
    requires good { AreGood (R.rows rows.now) }
    requires next { R.rows next.now ≡ after (R.rows rows.now) writes.now }
    ensures { IfOk result (λ keep. Decides keep (AreDeclared (R.rows next.now))) }
{
    if puts_orphan(alloc, next, writes)? {
        return Ok(false);
    }
    let gone = withdrawn(alloc, next, writes)?;
    if gone.is_empty() {
        return Ok(true);
    }
    Ok(!some_names(alloc, next, &gone)?)
}

/// The written keys that would declare a name and have no row.
fn withdrawn<R: RowStore>(
    alloc: Global,
    next: &R,
    writes: &[Write],
) -> Result<BTreeSet<Key>, AllocError>
    ensures { IfOk result (λ gone. AreWithdrawn (R.rows next.now) writes.now gone) }
{
    let mut gone = BTreeSet::new(alloc);
    for write in writes {
        gone = with_gone(next, gone, &write.key)?;
    }
    Ok(gone)
}

/// The keys with one more, if it would declare a name and has no row.
fn with_gone<R: RowStore>(
    next: &R,
    gone: BTreeSet<Key>,
    key: &Key,
) -> Result<BTreeSet<Key>, AllocError>
    ensures { IfOk result (λ all. told.HasGone (told.is_gone (R.rows next.now) key.now) key.now gone all) }
{
    if !declares(key) || has_row(next, key) {
        return Ok(gone);
    }
    with_key(gone, key)
}

/// Whether a row of the key declares a name.
fn declares(key: &Key) -> bool
    ensures { result ≡ told.declares key.now }
{
    matches!(
        key,
        Key::Net(_) | Key::Pid(_, _) | Key::Metric(_, _) | Key::Ane(_, _)
    )
}

/// The keys with one more.
fn with_key(keys: BTreeSet<Key>, key: &Key) -> Result<BTreeSet<Key>, AllocError>
    ensures { IfOk result (λ all. Updates key_cmp keys all key.now true) }
{
    let mut all = keys;
    all.insert(copied(key)?)?;
    Ok(all)
}

/// A copy of a key.
fn copied(key: &Key) -> Result<Key, AllocError>
    ensures { IfOk result (λ copy. copy ≡ key.now) }
{
    key.clone()
}

/// Whether some row names one of the keys. A walk over all rows.
fn some_names<R: RowStore>(
    alloc: Global,
    next: &R,
    gone: &BTreeSet<Key>,
) -> Result<bool, AllocError>
    ensures { IfOk result (λ some. some ≡ list_any (told.names_some gone.now) (R.rows next.now)) }
{
    for row in walk_from(next, &Key::Epoch) {
        if names_some(alloc, gone, row)? {
            return Ok(true);
        }
    }
    Ok(false)
}

/// Whether a row names one of the keys.
fn names_some(alloc: Global, gone: &BTreeSet<Key>, row: &(Key, Value)) -> Result<bool, AllocError>
    ensures { IfOk result (λ names. names ≡ told.names_some gone.now row.now) }
{
    let keys = needs(alloc, &row.0, &row.1)?;
    Ok(has_some(gone, &keys))
}

/// Whether one of the keys is in the set.
fn has_some(gone: &BTreeSet<Key>, keys: &[Key]) -> bool
    ensures { result ≡ list_any (contains key_cmp gone.now) keys.now }
{
    keys.iter().any(|key| is_in(gone, key))
}

/// Whether a key is in the set.
fn is_in(gone: &BTreeSet<Key>, key: &Key) -> bool
    ensures { result ≡ contains key_cmp gone.now key.now }
{
    gone.contains(key)
}
