ghost use Rattle.std.specs.Prelude.{◌≡◌, ◌+◌, ◌-◌, [], IfOk, OnOk, Some, length};
ghost use Rattle.std.specs.BTreeMap.{Updates};
ghost use Rattle.alto_rows.specs.Rows.{AreSorted};
ghost use Rattle.alto_rows.specs.Span.{count_in};
ghost use Rattle.alto_rules.specs.Sizes.{HasRecounted, count_from, counted_cmp, counted_of, recounted, span_of};

use crate::counted::{Counted, counted_of, span_of};
use alto_rows::{Key, RowStore};
use std::alloc::{AllocError, Global};
use std::collections::BTreeMap;

/// How many rows there are after writes.
#[derive(Drop)]
pub struct Sizes {
    /// All rows.
    pub total: usize,
    /// Those of what has more or fewer rows than before the writes.
    pub counts: BTreeMap<Counted, usize>,
}

impl Sizes {
    /// The sizes of the rows of a store.
    pub fn new<R: RowStore>(alloc: Global, rows: &R) -> Sizes
        ensures total { result.total ≡ length (R.rows rows.now) }
        ensures counts { result.counts.entries ≡ [] }
    {
        Sizes {
            total: rows.len(),
            counts: BTreeMap::new(alloc),
        }
    }

    /// How many rows of what is counted there are. A search, or three where the writes left their number.
    pub fn count<R: RowStore>(&self, rows: &R, counted: &Counted) -> Result<usize, AllocError>
        ensures { IfOk result (λ count. count ≡ count_from (R.rows rows.now) self.now.counts counted.now) }
    {
        match self.counts.get(counted) {
            Some(count) => Ok(*count),
            None => {
                let span = span_of(counted)?;
                let count = rows.count_in(&span);
                // a call: dropped in place the span takes long to prove, variant by variant
                drop(span);
                Ok(count)
            }
        }
    }

    /// The same once a row of them is there or not that was there or not.
    fn count_after<R: RowStore>(
        &self,
        rows: &R,
        counted: &Counted,
        had: bool,
        has: bool,
    ) -> Result<usize, AllocError>
        ensures { IfOk result (λ count. count
            ≡ recounted had has (count_from (R.rows rows.now) self.now.counts counted.now)) }
    {
        recounted(had, has, self.count(rows, counted)?)
    }

    /// Counts anew after a write of a key that had a row or not, and then has one or not.
    pub fn recount<R: RowStore>(
        &mut self,
        rows: &R,
        key: &Key,
        had: bool,
        has: bool,
    ) -> Result<(), AllocError>
        ensures total { OnOk result (self.new.total ≡ recounted had has self.old.total) }
        ensures counts { OnOk result (
            HasRecounted (R.rows rows.now) (counted_of key.now) had has self.old.counts self.new.counts) }
    {
        self.total = recounted(had, has, self.total)?;
        match counted_of(key)? {
            Some(counted) => match self.count_after(rows, &counted, had, has) {
                Ok(count) => set_count(&mut self.counts, counted, count),
                Err(fault) => {
                    drop(counted);
                    Err(fault)
                }
            },
            None => Ok(()),
        }
    }
}

/// A count once a row is there or not that was there or not. More rows than memory has addresses are out of memory.
fn recounted(had: bool, has: bool, count: usize) -> Result<usize, AllocError>
    ensures { IfOk result (λ after. after ≡ recounted had has count) }
{
    match (had, has) {
        (true, false) => Ok(count.saturating_sub(1)),
        (false, true) => count.checked_add(1).ok_or(AllocError),
        _ => Ok(count),
    }
}

/// Sets one of the counts.
fn set_count(
    counts: &mut BTreeMap<Counted, usize>,
    counted: Counted,
    count: usize,
) -> Result<(), AllocError>
    ensures { OnOk result (Updates counted_cmp counts.old counts.new counted (Some count)) }
{
    counts.insert(counted, count)?;
    Ok(())
}
