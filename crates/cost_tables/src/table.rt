//! The costs of one metric, by source.
ghost use Rattle.std.specs.Prelude.{◌≡◌, ◌++◌, ◌+◌, ℕ, List, IfOk, IfSome, option_map};
ghost use Rattle.std.specs.Arc.{arc_value};
ghost use Rattle.std.specs.BTreeMap.{is_at};
ghost use Rattle.std.specs.List.{AllByRecursion};
ghost use Rattle.std.specs.List.Sorted.{IsStrictlySortedBy};
ghost use Rattle.std.specs.Map.{lookup};
ghost use Rattle.alto_rows.specs.Order.{name_cmp};
ghost use Rattle.alto_rows.specs.Rows.{AreSorted, Rows};
ghost use Rattle.alto_rows.specs.Rows as spec;
ghost use Rattle.cost_tables.specs.Lists.{HasNumber, HaveNumbers, IsNumberedBehind, IsSharedOrNew, table_of};
ghost use Rattle.cost_tables.specs.Renewed.{CameFrom, IsRenewed, costs_in, put};
ghost use Rattle.cost_tables.specs.Tables.{HasCostsOf, Name, TellsCosts, costs_from};

use crate::from_source::FromSource;
use crate::pid_text::PidText;
use crate::sources::{sources_in, sources_written};
use alto_names::{Metric, NetName, PidName};
use alto_rows::{RowStore, Span, Write};
use shared_list::{Change, SharedList};
use std::alloc::{AllocError, Global};
use std::marker::Model;
use std::sync::Arc;

/// The costs of one metric, by source in byte order. A contract sees the sources with their costs and the lists of
/// their destinations. Lists with one number have the same names.
#[derive(Drop)]
pub(crate) struct Table {
    sources: SharedList<FromSource>,
    /// The next number of a list of destinations.
    next: u64,
}

impl Model for Table {
    ghost use Rattle.cost_tables.specs.Lists.{AreNumbered, Sources};

    ghost Value = { Sources };

    ghost view = { λ table. table.sources };

    ghost invariant = { λ table. AreNumbered table.next table.sources };
}

impl Table {
    /// The costs of a metric that rows give. Two walks over the metric's rows, and a search for each source.
    pub(crate) fn of<R: RowStore>(
        alloc: Global,
        rows: &R,
        net: &NetName,
        metric: &Metric,
    ) -> Result<Table, AllocError>
        requires { AreSorted (R.rows rows.now) }
        ensures { IfOk result (λ table. TellsCosts (R.rows rows.now) net.now metric.now (table_of table)) }
    {
        let sources = sources_in(alloc, rows, net, metric)?;
        let none = Table {
            sources: SharedList::new(alloc),
            next: 0,
        };
        none.renewed(alloc, rows, net, metric, &sources, &[])
    }

    /// The costs after writes that led to these rows, where there was this table before. A look at each write and at
    /// each run of sources. For each source of which a cost was written a copy of its costs and a look at each write,
    /// where these only write over costs and are no more than the source has; else a search and a walk over its rows.
    /// All others are shared.
    pub(crate) fn after<R: RowStore>(
        table: &Arc<Table>,
        alloc: Global,
        rows: &R,
        net: &NetName,
        metric: &Metric,
        writes: &[Write],
    ) -> Result<Arc<Table>, AllocError>
        requires { AreSorted (R.rows rows.now) }
        ensures { IfOk result (λ after. (before : Rows) → AreSorted before
            → R.rows rows.now ≡ spec.after before writes.now
            → TellsCosts before net.now metric.now (table_of (arc_value table.now))
            → TellsCosts (R.rows rows.now) net.now metric.now (table_of (arc_value after))) }
    {
        let sources = sources_written(alloc, net, metric, writes)?;
        if sources.is_empty() {
            return Arc::try_clone(table);
        }
        Ok(Arc::new(
            alloc,
            table.renewed(alloc, rows, net, metric, &sources, writes)?,
        )?)
    }

    /// The costs from a source, if it has any. Two searches among numbers that lie together, and one comparison of two
    /// names, where no other source's name begins with the same eight bytes.
    pub(crate) fn from(&self, source: &PidText) -> Option<&FromSource>
        ensures from { option_map (λ from. from.now.1) result ≡ lookup (is_at (name_cmp source.now)) self.now }
        ensures lists { HaveNumbers self.now }
    {
        self.sources.find(source.as_bytes())
    }

    /// The table after writes that led to these rows, with the costs from sources, which stand in byte order, made
    /// anew.
    fn renewed<R: RowStore>(
        &self,
        alloc: Global,
        rows: &R,
        net: &NetName,
        metric: &Metric,
        sources: &[PidName],
        writes: &[Write],
    ) -> Result<Table, AllocError>
        requires sorted { AreSorted (R.rows rows.now) }
        requires rise { IsStrictlySortedBy name_cmp sources.now }
        ensures { IfOk result (λ table. (before : Rows)
            → CameFrom net.now metric.now self.now writes.now (R.rows rows.now) before
            → IsRenewed (R.rows rows.now) net.now metric.now sources.now (table_of self.now) (table_of table)) }
    {
        let mut changes = Vec::with_capacity(alloc, sources.len())?;
        let mut next = self.next;
        for source in sources {
            let change = self.change_of(alloc, rows, net, metric, source, writes, &changes, next)?;
            changes.push(change)?;
            next = following(next)?;
        }
        Ok(Table {
            sources: self.sources.changed(alloc, changes)?,
            next,
        })
    }

    /// A source with its costs after writes that led to these rows, behind changes, if it has any then. A new list of
    /// its destinations gets this number.
    fn change_of<'a, R: RowStore>(
        &self,
        alloc: Global,
        rows: &R,
        net: &NetName,
        metric: &Metric,
        source: &'a PidName,
        writes: &[Write],
        changes: &[Change<'_, FromSource>],
        number: u64,
    ) -> Result<Change<'a, FromSource>, AllocError>
        requires { AreSorted (R.rows rows.now) }
        ensures source { IfOk result (λ change. change.0 ≡ source.now) }
        ensures named { IfOk result (λ change. IfSome change.1 (λ from. from.0 ≡ source.now)) }
        ensures costs { IfOk result (λ change. (before : Rows)
            → CameFrom net.now metric.now self.now writes.now (R.rows rows.now) before
            → HasCostsOf (R.rows rows.now) net.now metric.now source.now (costs_in change.1)) }
        ensures list { IfOk result (λ change. IfSome change.1 (λ from.
            IsNumberedBehind (self.now ++ put changes.now) number from.1)) }
    {
        if let Some(from) = self.overwritten(alloc, net, metric, source, writes)? {
            return Ok(Change::new(source.as_bytes(), Some(from)));
        }
        let like = self.like(count_from(rows, net, metric, source)?, source, changes);
        change_read(alloc, rows, net, metric, source, like, number)
    }

    /// The costs from a source after writes, if these write over some that it has, and do no more to it. Takes no
    /// longer than to read them from rows.
    fn overwritten(
        &self,
        alloc: Global,
        net: &NetName,
        metric: &Metric,
        source: &PidName,
        writes: &[Write],
    ) -> Result<Option<FromSource>, AllocError>
        ensures source { IfOk result (λ found. IfSome found (λ from. from.0 ≡ source.now)) }
        ensures list { IfOk result (λ found. IfSome found (λ from. (names_of : ℕ → List Name) → (next : ℕ)
            → AllByRecursion (λ from. HasNumber names_of next from.1) self.now → HasNumber names_of next from.1)) }
        ensures costs { IfOk result (λ found. IfSome found (λ from. (rows before : Rows)
            → CameFrom net.now metric.now self.now writes.now rows before
            → HasCostsOf rows net.now metric.now source.now from.1.costs)) }
    {
        match self.sources.find(source.as_bytes()) {
            Some(own) if writes.len() <= own.count() => own.overwritten(alloc, net, metric, writes),
            _ => Ok(None),
        }
    }

    /// A source that may have the same destinations as one that is made anew behind changes, with so many costs: that
    /// source itself, if it has as many, else the one that was made last, else the first.
    fn like<'a>(
        &'a self,
        count: usize,
        source: &PidName,
        changes: &'a [Change<'_, FromSource>],
    ) -> Option<&'a FromSource>
        ensures { (names_of : ℕ → List Name) → (next : ℕ)
            → AllByRecursion (λ from. HasNumber names_of next from.1) (self.now ++ put changes.now)
            → IfSome result (λ from. HasNumber names_of next from.now.1) }
    {
        if let Some(own) = self.sources.find(source.as_bytes()) {
            if own.count() == count {
                return Some(own);
            }
        }
        match changes.last() {
            Some(change) => change.item(),
            None => self.sources.items().next(),
        }
    }
}

/// How many costs from a source rows give. One search for each end of them.
fn count_from<R: RowStore>(
    rows: &R,
    net: &NetName,
    metric: &Metric,
    source: &PidName,
) -> Result<usize, AllocError> {
    let span = Span::CostsFrom(net.clone()?, metric.clone()?, source.clone()?);
    Ok(rows.count_in(&span))
}

/// A source with the costs that rows give, if there are any. A new list of its destinations gets this number.
fn change_read<'a, R: RowStore>(
    alloc: Global,
    rows: &R,
    net: &NetName,
    metric: &Metric,
    source: &'a PidName,
    like: Option<&FromSource>,
    number: u64,
) -> Result<Change<'a, FromSource>, AllocError>
    requires { AreSorted (R.rows rows.now) }
    ensures source { IfOk result (λ change. change.0 ≡ source.now) }
    ensures named { IfOk result (λ change. IfSome change.1 (λ from. from.0 ≡ source.now)) }
    ensures costs { IfOk result (λ change. costs_in change.1
        ≡ costs_from (R.rows rows.now) net.now metric.now source.now) }
    ensures list { IfOk result (λ change. IfSome change.1 (λ from.
        IsSharedOrNew (option_map (λ from. from.now.1.list) like.entry) number from.1.list)) }
{
    let from = FromSource::of(alloc, rows, net, metric, source, like, number)?;
    let item = if from.is_empty() { None } else { Some(from) };
    Ok(Change::new(source.as_bytes(), item))
}

/// The number behind one. More than 64 bits can count are out of memory.
fn following(number: u64) -> Result<u64, AllocError>
    ensures { IfOk result (λ following. following ≡ number + 1) }
{
    number.checked_add(1).ok_or(AllocError)
}
