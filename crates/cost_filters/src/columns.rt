//! Asked cost types made ready for many pairs.
ghost use Rattle.std.specs.Prelude.{◌≡◌, IfOk, option_map};
ghost use Rattle.std.specs.List.{filter_map};
ghost use Rattle.alto_rows.specs.Good.{AreGood};
ghost use Rattle.cost_tables.specs.Tables.{IsSetOf};
ghost use Rattle.cost_filters.specs.Columns.{column_of, columns_of, destination, reached, scale_of, scaled};
ghost use Rattle.cost_docs.specs.CostMap as map_spec;

use crate::names::distinct_names;
use crate::types::CostType;
use alto_names::{Metric, NetName, PidName};
use alto_rows::{Key, RowStore, Span, Within, rows_in};
use cost_docs::Ranks;
use std::alloc::{AllocError, Global};

/// How the costs of a type are told.
#[derive(Drop)]
pub(crate) enum Scale {
    /// As they are.
    Numerical,
    /// As ranks.
    Ordinal(Ranks),
}

/// A cost type's metric, and how its costs are told.
#[derive(Drop)]
pub(crate) struct Column {
    pub(crate) metric: Metric,
    pub(crate) scale: Scale,
}

/// Those of types. For each ordinal one, one walk over its metric's rows.
pub(crate) fn columns_of<R: RowStore>(
    alloc: Global,
    rows: &R,
    net: &NetName,
    types: &[CostType],
) -> Result<Vec<Column>, AllocError>
    requires { AreGood (R.rows rows.now) }
    ensures { IfOk result (λ columns. columns.items ≡ columns_of (R.rows rows.now) net.now types.now) }
{
    let mut columns = Vec::with_capacity(alloc, types.len())?;
    for one in types {
        columns.push(column_of(alloc, rows, net, one)?)?;
    }
    Ok(columns)
}

fn column_of<R: RowStore>(
    alloc: Global,
    rows: &R,
    net: &NetName,
    one: &CostType,
) -> Result<Column, AllocError>
    requires { AreGood (R.rows rows.now) }
    ensures { IfOk result (λ column. column ≡ column_of (R.rows rows.now) net.now one.now) }
{
    Ok(Column {
        metric: one.metric.clone()?,
        scale: scale_of(alloc, rows, net, one)?,
    })
}

fn scale_of<R: RowStore>(
    alloc: Global,
    rows: &R,
    net: &NetName,
    one: &CostType,
) -> Result<Scale, AllocError>
    requires { AreGood (R.rows rows.now) }
    ensures { IfOk result (λ scale. scale ≡ scale_of (R.rows rows.now) net.now one.now) }
{
    if one.ordinal {
        return Ok(Scale::Ordinal(Ranks::of(alloc, rows, net, &one.metric)?));
    }
    Ok(Scale::Numerical)
}

/// The PIDs to which a source has a cost in one of these columns, in byte order. One search for each, and one walk over
/// the source's rows in it; for several columns one sort.
pub(crate) fn reached_once<R: RowStore>(
    alloc: Global,
    rows: &R,
    net: &NetName,
    columns: &[Column],
    src: &PidName,
) -> Result<Vec<PidName>, AllocError>
    requires { AreGood (R.rows rows.now) }
    ensures { IfOk result (λ names. IsSetOf names.items (reached (R.rows rows.now) net.now columns.now src.now)) }
{
    let names = reached(alloc, rows, net, columns, src)?;
    if columns.len() < 2 {
        return Ok(names);
    }
    distinct_names(names)
}

/// The PIDs to which a source has a cost in one of these columns, column by column. One search for each, and one walk
/// over the source's rows in it.
fn reached<R: RowStore>(
    alloc: Global,
    rows: &R,
    net: &NetName,
    columns: &[Column],
    src: &PidName,
) -> Result<Vec<PidName>, AllocError>
    ensures { IfOk result (λ names. names.items ≡ reached (R.rows rows.now) net.now columns.now src.now) }
{
    let mut names = Vec::new(alloc);
    for column in columns {
        let mut more = destinations_of(alloc, rows, net, &column.metric, src)?;
        names.append(&mut more)?;
    }
    Ok(names)
}

fn destinations_of<R: RowStore>(
    alloc: Global,
    rows: &R,
    net: &NetName,
    metric: &Metric,
    src: &PidName,
) -> Result<Vec<PidName>, AllocError>
    ensures { IfOk result (λ names. names.items
        ≡ map_spec.destinations_of (R.rows rows.now) net.now metric.now src.now) }
{
    // a walk that is let go by one call is cheaper to prove than one that a loop drops at each exit
    let mut walk = rows_in(
        rows,
        Span::CostsFrom(net.clone()?, metric.clone()?, src.clone()?),
    );
    let names = destinations_in(alloc, &mut walk);
    drop(walk);
    names
}

/// The PIDs to which the rows of a walk tell costs.
fn destinations_in<R: RowStore>(
    alloc: Global,
    walk: &mut Within<R>,
) -> Result<Vec<PidName>, AllocError>
    ensures { IfOk result (λ names. names.items ≡ filter_map destination walk.old) }
{
    let mut names = Vec::new(alloc);
    while let Some(row) = walk.next() {
        if let Key::Cost(_, _, _, dst) = &row.0 {
            names.push(dst.clone()?)?;
        }
    }
    Ok(names)
}

/// A cost as it is told.
pub(crate) fn scaled(scale: &Scale, cost: Option<u64>) -> Option<u64>
    ensures { result ≡ option_map (scaled scale.now) cost }
{
    match cost {
        Some(cost) => Some(scaled_one(scale, cost)),
        None => None,
    }
}

fn scaled_one(scale: &Scale, cost: u64) -> u64
    ensures { result ≡ scaled scale.now cost }
{
    match scale {
        Scale::Numerical => cost,
        Scale::Ordinal(ranks) => ranks.rank(cost),
    }
}
