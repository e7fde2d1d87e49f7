//! The sources that rows and writes name, in byte order, each once.
ghost use Rattle.std.specs.Prelude.{◌≡◌, ◌||◌, IfOk, OnOk, map, option_map};
ghost use Rattle.std.specs.List.{list_any};
ghost use Rattle.std.specs.Map.{keys_of};
ghost use Rattle.alto_rows.specs.Order.{same_name};
ghost use Rattle.cost_tables.specs.Tables.{IsSetOf, Name, source_of, sources_of};

use alto_names::{Metric, NetName, PidName};
use alto_rows::{Key, RowStore, Span, Within, Write, rows_in};
use std::alloc::{AllocError, Global};
use std::collections::BTreeSet;

/// All sources that have a cost of a metric. One search, and one walk over the rows of the metric.
pub(crate) fn sources_in<R: RowStore>(
    alloc: Global,
    rows: &R,
    net: &NetName,
    metric: &Metric,
) -> Result<Vec<PidName>, AllocError>
    ensures { IfOk result (λ sources. IsSetOf sources.items
        (sources_of net.now metric.now (keys_of (R.rows rows.now)))) }
{
    let mut costs = rows_in(rows, Span::CostsIn(net.clone()?, metric.clone()?));
    let sources = sources_walked(alloc, net, metric, &mut costs);
    // By a call: a walk that goes out of scope is dear to prove.
    drop(costs);
    sources
}

/// All sources that the rows of a walk have a cost of a metric from. The walk is only borrowed: it is let go in one
/// place.
fn sources_walked<R: RowStore>(
    alloc: Global,
    net: &NetName,
    metric: &Metric,
    costs: &mut Within<R>,
) -> Result<Vec<PidName>, AllocError>
    ensures { IfOk result (λ sources. IsSetOf sources.items
        (sources_of net.now metric.now (keys_of costs.old))) }
{
    let mut sources = BTreeSet::new(alloc);
    while let Some(row) = costs.next() {
        if let Some(source) = source_of(net, metric, &row.0) {
            add(&mut sources, source)?;
        }
    }
    sources.into_iter().collect(alloc)
}

/// All sources of which a cost of a metric is written. A look at each write.
pub(crate) fn sources_written(
    alloc: Global,
    net: &NetName,
    metric: &Metric,
    writes: &[Write],
) -> Result<Vec<PidName>, AllocError>
    ensures { IfOk result (λ sources. IsSetOf sources.items
        (sources_of net.now metric.now (map (λ write. write.key) writes.now))) }
{
    let mut sources = BTreeSet::new(alloc);
    for write in writes {
        if let Some(source) = source_of(net, metric, &write.key) {
            add(&mut sources, source)?;
        }
    }
    sources.into_iter().collect(alloc)
}

/// The source of a cost of a metric.
fn source_of<'a>(net: &NetName, metric: &Metric, key: &'a Key) -> Option<&'a PidName>
    ensures { option_map (λ source. source.now) result ≡ source_of net.now metric.now key.now }
{
    match key {
        Key::Cost(of, kind, source, _) if net == of && metric == kind => Some(source),
        _ => None,
    }
}

/// Adds a source. One comparison where it is the last in order.
fn add(sources: &mut BTreeSet<PidName>, source: &PidName) -> Result<(), AllocError>
    ensures { OnOk result ((name : Name) → list_any (same_name name) sources.new.keys
        ≡ (same_name name source.now || list_any (same_name name) sources.old.keys)) }
{
    if sources.last() == Some(source) {
        return Ok(());
    }
    sources.insert(source.clone()?)?;
    Ok(())
}
