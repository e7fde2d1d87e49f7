ghost use Rattle.std.specs.Prelude.{◌≡◌, [], IfOk, length, option_copied, option_map, slice_get};
ghost use Rattle.alto_rows.specs.Rows.{Rows, AreSorted, IsRunOf, value_of, after, rows_from, rows_past};
ghost use Rattle.alto_rows.specs.Span.{count_in, rows_from_span};

use crate::key::Key;
use crate::span::Span;
use crate::value::Value;
use crate::write::Write;
use std::alloc::{AllocError, Global};

/// A store of rows. A contract sees it as the list of its rows in the order of their keys, however it keeps them.
pub trait RowStore: Drop {
    ghost rows: { Self → Rows };

    /// No rows.
    fn empty(alloc: Global) -> Result<Self, AllocError>
    where
        Self: Sized,
        ensures { IfOk result (λ store. rows store ≡ []) };

    /// The value at a key, `None` exactly where the key has no row. One search.
    fn get(&self, key: &Key) -> Option<&Value>
        ensures value { option_copied result ≡ value_of (rows self.now) key.now }
        ensures sorted { AreSorted (rows self.now) };

    /// The first row at or after a key, `None` exactly where there is none. One search.
    fn next_from(&self, key: &Key) -> Option<(&Key, &Value)>
        ensures row { option_map (λ row. (row.0.now, row.1.now)) result
            ≡ slice_get (rows_from (rows self.now) key.now) 0 }
        ensures sorted { AreSorted (rows self.now) };

    /// The rows at or after a key that lie together in memory, from the first such row on: empty exactly where
    /// there is none. One search, so that a walk costs one search a run and not one a row.
    fn run_from(&self, key: &Key) -> &[(Key, Value)]
        ensures run { IsRunOf (rows_from (rows self.now) key.now) result.now }
        ensures sorted { AreSorted (rows self.now) };

    /// The same of the rows after a key.
    fn run_after(&self, key: &Key) -> &[(Key, Value)]
        ensures run { IsRunOf (rows_past (rows self.now) key.now) result.now }
        ensures sorted { AreSorted (rows self.now) };

    /// The same of the rows that aren't before a span. One search, and no key is made.
    fn run_in(&self, span: &Span) -> &[(Key, Value)]
        ensures run { IsRunOf (rows_from_span (rows self.now) span.now) result.now }
        ensures sorted { AreSorted (rows self.now) };

    /// How many rows there are. Takes constant time.
    fn len(&self) -> usize
        ensures count { result ≡ length (rows self.now) }
        ensures sorted { AreSorted (rows self.now) };

    /// How many keys of a span have rows. Two searches.
    fn count_in(&self, span: &Span) -> usize
        ensures count { result ≡ count_in (rows self.now) span.now }
        ensures sorted { AreSorted (rows self.now) };

    /// The rows after the writes, in their order.
    fn with(&self, alloc: Global, writes: &[Write]) -> Result<Self, AllocError>
    where
        Self: Sized,
        ensures { IfOk result (λ store. rows store ≡ after (rows self.now) writes.now) };
}
