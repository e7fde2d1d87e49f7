//! The costs of all metrics.
ghost use Rattle.std.specs.Prelude.{◌≡◌, IfOk, option_map};
ghost use Rattle.std.specs.Arc.{arc_value};
ghost use Rattle.std.specs.Map.{lookup};
ghost use Rattle.alto_rows.specs.Good.{AreGood};
ghost use Rattle.alto_rows.specs.Rows.{AreSorted, Rows};
ghost use Rattle.alto_rows.specs.Rows as spec;
ghost use Rattle.alto_rows.specs.Versions.{resources_of};
ghost use Rattle.cost_tables.specs.Lists.{table_of};
ghost use Rattle.cost_tables.specs.Tables.{AreCostsOf, Name, TellsCosts, cost_in, cost_to, costs_between, costs_of};
ghost use Rattle.cost_tables.specs.Tables.{is_of};

use crate::between::CostsBetween;
use crate::costs_between::costs_between;
use crate::costs_from::CostsFrom;
use crate::pid_text::PidText;
use crate::table::Table;
use alto_names::{Metric, NetName, PidName};
use alto_rows::{Resource, RowStore, Write};
use std::alloc::{AllocError, Global};
use std::marker::Model;
use std::sync::Arc;

/// The costs of one metric of a network. A contract sees both names, and the sources with their costs.
#[derive(Drop)]
struct MetricTable {
    net: NetName,
    metric: Metric,
    table: Arc<Table>,
}

impl Model for MetricTable {
    ghost use Rattle.std.specs.Arc.{arc_value};
    ghost use Rattle.cost_tables.specs.Lists.{table_of};
    ghost use Rattle.cost_tables.specs.Tables as tables;

    ghost Value = { (tables.Name × tables.Name) × tables.Table };

    ghost view = { λ of. ((of.net, of.metric), table_of (arc_value of.table)) };
}

/// The costs of all metrics. A contract sees them by network and metric, source, and destination.
#[derive(Drop)]
pub struct CostTables {
    tables: Vec<MetricTable>,
}

impl Model for CostTables {
    ghost use Rattle.cost_tables.specs.Tables.{Tables};

    ghost Value = { Tables };

    ghost view = { λ tables. tables.tables.items };
}

impl CostTables {
    /// The costs that rows which declare these resources give. Two walks over the rows of the costs, and a search for
    /// each source in each metric.
    pub fn of<R: RowStore>(
        alloc: Global,
        rows: &R,
        resources: &[Resource],
    ) -> Result<CostTables, AllocError>
        requires good { AreGood (R.rows rows.now) }
        requires declared { resources.now ≡ resources_of (R.rows rows.now) }
        ensures { IfOk result (AreCostsOf (R.rows rows.now)) }
    {
        let mut tables = Vec::new(alloc);
        for of in resources {
            if let Resource::Cost(net, metric) = of {
                let table = Arc::new(alloc, Table::of(alloc, rows, net, metric)?)?;
                tables.push(metric_table(net, metric, table)?)?;
            }
        }
        Ok(CostTables { tables })
    }

    /// The costs after writes that led to rows which declare these resources. Costs a look at each write for each
    /// metric, and a walk over the sources for each metric of which a cost was written. For each source of which one
    /// was written it costs a copy of its costs and a look at each write, where these only write over costs and are no
    /// more than the source has; else a search, a walk over its rows, and a comparison of its destinations' names with
    /// those of a source beside it. The costs from all other sources are shared.
    pub fn after<R: RowStore>(
        &self,
        alloc: Global,
        rows: &R,
        resources: &[Resource],
        writes: &[Write],
    ) -> Result<CostTables, AllocError>
        requires good { AreGood (R.rows rows.now) }
        requires declared { resources.now ≡ resources_of (R.rows rows.now) }
        ensures { IfOk result (λ tables. (before : Rows) → AreSorted before
            → R.rows rows.now ≡ spec.after before writes.now → AreCostsOf before self.now
            → AreCostsOf (R.rows rows.now) tables) }
    {
        let mut tables = Vec::with_capacity(alloc, self.tables.len())?;
        for of in resources {
            if let Resource::Cost(net, metric) = of {
                let table = self.table_after(alloc, rows, net, metric, writes)?;
                tables.push(metric_table(net, metric, table)?)?;
            }
        }
        Ok(CostTables { tables })
    }

    /// The costs in a metric of a network from sources to destinations, by source. One pass over the metrics, and for
    /// each source one search among numbers that lie together. Where the destinations stand is found once for all
    /// sources in a row that have the same, and for each of them likewise.
    pub fn costs_between(
        &self,
        alloc: Global,
        net: &NetName,
        metric: &Metric,
        sources: &[PidText],
        destinations: &[PidText],
    ) -> Result<CostsBetween, AllocError>
        ensures { IfOk result (λ costs. costs
            ≡ costs_between (costs_of self.now net.now metric.now) sources.now destinations.now) }
    {
        match self.table(net, metric) {
            Some(table) => costs_between(alloc, Some(&**table), sources, destinations),
            None => costs_between(alloc, None, sources, destinations),
        }
    }

    /// The costs in a metric of a network from a source. One pass over the metrics, two searches among numbers that lie
    /// together, and one comparison of two names, where no other source's name begins with the same eight bytes.
    pub fn costs_from(&self, net: &NetName, metric: &Metric, source: &PidText) -> CostsFrom<'_>
        ensures { (dst : Name) → cost_to result dst ≡ cost_in self.now net.now metric.now source.now dst }
    {
        match self.table(net, metric) {
            Some(table) => CostsFrom::new(table.from(source)),
            None => CostsFrom::new(None),
        }
    }

    /// The costs of a metric after writes that led to these rows.
    fn table_after<R: RowStore>(
        &self,
        alloc: Global,
        rows: &R,
        net: &NetName,
        metric: &Metric,
        writes: &[Write],
    ) -> Result<Arc<Table>, AllocError>
        requires { AreSorted (R.rows rows.now) }
        ensures { IfOk result (λ table. (before : Rows) → AreSorted before
            → R.rows rows.now ≡ spec.after before writes.now → AreCostsOf before self.now
            → TellsCosts (R.rows rows.now) net.now metric.now (table_of (arc_value table))) }
    {
        match self.table(net, metric) {
            Some(table) => Table::after(table, alloc, rows, net, metric, writes),
            None => Ok(Arc::new(alloc, Table::of(alloc, rows, net, metric)?)?),
        }
    }

    /// The costs of a metric, if it has a table. Linear in their number.
    fn table(&self, net: &NetName, metric: &Metric) -> Option<&Arc<Table>>
        ensures { option_map (λ table. table_of (arc_value table.now)) result
            ≡ lookup (is_of net.now metric.now) self.now }
    {
        for of in &self.tables {
            if *net == of.net && *metric == of.metric {
                return Some(&of.table);
            }
        }
        None
    }
}

/// The table of a metric, under its names.
fn metric_table(
    net: &NetName,
    metric: &Metric,
    table: Arc<Table>,
) -> Result<MetricTable, AllocError>
    ensures { IfOk result (λ of. of ≡ ((net.now, metric.now), table_of (arc_value table))) }
{
    Ok(MetricTable {
        net: net.clone()?,
        metric: metric.clone()?,
        table,
    })
}
