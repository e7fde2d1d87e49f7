ghost use Rattle.std.specs.Prelude.{◌≡◌};
ghost use Rattle.std.specs.Iterator.{YieldsFirstRef, item_count};
ghost use Rattle.alto_rows.specs.Rows.{AreSorted, IsRunOf, rows_from, rows_past};
ghost use Rattle.alto_rows.specs.Span.{rows_from_span};
ghost use Rattle.alto_rows.specs.Walk.{Begins};

use crate::key::Key;
use crate::span::Span;
use crate::store::RowStore;
use crate::value::Value;
use std::marker::Model;

/// A walk over the rows of a store, in the order of their keys. A contract sees it as the list of the rows that are
/// left.
#[derive(Drop)]
pub struct Walk<'a, R: RowStore> {
    store: &'a R,
    run: &'a [(Key, Value)],
}

impl<'a, R: RowStore> Model for Walk<'a, R> {
    ghost use Rattle.alto_rows.specs.Rows.{Rows};
    ghost use Rattle.alto_rows.specs.Walk.{rows_left, IsWalking};

    ghost Value = { Rows };

    ghost view = { λ walk. rows_left (R.rows walk.store.now) walk.run.now };

    ghost invariant = { λ walk. IsWalking (R.rows walk.store.now) walk.run.now };
}

/// The rows at or after a key. It searches once for each run of the store.
pub fn walk_from<'a, R: RowStore>(store: &'a R, key: &Key) -> Walk<'a, R>
    ensures { result ≡ rows_from (R.rows store.now) key.now }
{
    Walk {
        store,
        run: store.run_from(key),
    }
}

/// The rows that aren't before a span.
pub(crate) fn walk_from_span<'a, R: RowStore>(store: &'a R, span: &Span) -> Walk<'a, R>
    ensures rows { result ≡ rows_from_span (R.rows store.now) span.now }
    ensures sorted { AreSorted (R.rows store.now) }
{
    Walk {
        store,
        run: store.run_in(span),
    }
}

impl<'a, R: RowStore> Walk<'a, R> {
    /// The first rows that are left, as many as lie together in memory.
    pub(crate) fn ahead(&self) -> &'a [(Key, Value)]
        ensures { Begins self.now result.now }
    {
        self.run
    }
}

impl<'a, R: RowStore> Iterator for Walk<'a, R> {
    type Item = &'a (Key, Value);

    ghost next_gives = { YieldsFirstRef (λ rows. rows) };

    ghost remaining = { item_count (λ rows. rows) };

    fn next(&mut self) -> Option<&'a (Key, Value)> {
        let (row, rest) = self.run.split_first()?;
        self.run = run_behind(self.store, &row.0, rest);
        Some(row)
    }
}

/// The run behind a row: the rest of its own run or, where that is used up, the next of the store.
fn run_behind<'a, R: RowStore>(
    store: &'a R,
    key: &Key,
    rest: &'a [(Key, Value)],
) -> &'a [(Key, Value)]
    requires { Begins (rows_past (R.rows store.now) key.now) rest.now }
    ensures { IsRunOf (rows_past (R.rows store.now) key.now) result.now }
{
    if rest.is_empty() {
        store.run_after(key)
    } else {
        rest
    }
}
