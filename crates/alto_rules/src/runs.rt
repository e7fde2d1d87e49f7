//! A search that goes on from where the last one ended.
ghost use Rattle.std.specs.Prelude.{◌≡◌, IfSome, false, option_map};
ghost use Rattle.std.specs.Ordering.{is_eq, is_gt};
ghost use Rattle.alto_rows.specs.Order.{key_cmp};
ghost use Rattle.alto_rows.specs.Rows.{Rows, AreSorted, IsRunOf, has_row, rows_from};

use alto_rows::{Key, RowStore, Value};

/// The rows from a key on that lie together, where such a run from the last key on is known, if there is one. Two or
/// three comparisons where the key is that of the run's first or second row or before these, and not before the last
/// key; else one search.
pub fn next_run<'a, R: RowStore>(
    rows: &'a R,
    last: Option<&Key>,
    run: &'a [(Key, Value)],
    key: &Key,
) -> &'a [(Key, Value)]
    requires sorted { AreSorted (R.rows rows.now) }
    requires run { IfSome (option_map (λ key. key.now) last)
        (λ last. IsRunOf (rows_from (R.rows rows.now) last) run.now) }
    ensures { IsRunOf (rows_from (R.rows rows.now) key.now) result.now }
{
    match last {
        Some(last) if !is_past(last, key) => match led(run, key) {
            Some(run) => run,
            None => rows.run_from(key),
        },
        _ => rows.run_from(key),
    }
}

/// A run without the rows before a key, where these are none or its first.
fn led<'a>(run: &'a [(Key, Value)], key: &Key) -> Option<&'a [(Key, Value)]>
    ensures { (rows : Rows) (last : Key) → AreSorted rows → is_gt (key_cmp last key.now) ≡ false
        → IsRunOf (rows_from rows last) run.now → IfSome result (λ run. IsRunOf (rows_from rows key.now) run.now) }
{
    let (row, behind) = run.split_first()?;
    if !is_past(key, &row.0) {
        return Some(run);
    }
    let (next, _) = behind.split_first()?;
    if is_past(key, &next.0) {
        return None;
    }
    Some(behind)
}

/// Whether a key has a row, by a run of the rows from it on. One comparison.
pub fn is_first(run: &[(Key, Value)], key: &Key) -> bool
    ensures { (rows : Rows) → AreSorted rows → IsRunOf (rows_from rows key.now) run.now
        → result ≡ has_row rows key.now }
{
    match run.first() {
        Some(row) => is_of(row, key),
        None => false,
    }
}

/// Whether a key is behind another.
#[tactic(auto, using(alto_rows::proofs::OrderLemmas::derived_key_cmp))]
fn is_past(key: &Key, other: &Key) -> bool
    ensures { result ≡ is_gt (key_cmp key.now other.now) }
{
    key.cmp(other).is_gt()
}

/// Whether a row is of a key.
#[tactic(auto, using(alto_rows::proofs::OrderLemmas::derived_key_cmp))]
fn is_of(row: &(Key, Value), key: &Key) -> bool
    ensures { result ≡ is_eq (key_cmp key.now row.now.0) }
{
    key.cmp(&row.0).is_eq()
}
