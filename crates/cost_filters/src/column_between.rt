//! The costs of columns between sources and destinations.
ghost use Rattle.std.specs.Prelude.{◌≡◌, ◌++◌, [], false, IfOk, IfSome, OnOk, is_some, map, option_map, slice_get};
ghost use Rattle.std.specs.Prelude.{unwrap_or};
ghost use Rattle.serde_json.specs.View.{items_of};
ghost use Rattle.serde_json.specs.Written.{compact_text, items_text};
ghost use Rattle.cost_docs.specs.CostMap.{number_data};
ghost use Rattle.cost_filters.specs.declared.columns.Scale.TheVariants as told_as;
ghost use Rattle.cost_filters.specs.Between.{columns_at, column_between, cost_between, costs_as, tested_between};
ghost use Rattle.cost_filters.specs.Between.{told_between};
ghost use Rattle.cost_filters.specs.Columns.{scaled};
ghost use Rattle.cost_filters.specs.Filter.{costs_data};
ghost use Rattle.cost_filters.specs.Pairs.{costs_at, has_cost};

use crate::columns::{Column, Scale, scaled};
use crate::text::push_cost;
use crate::types::CostType;
use alto_names::NetName;
use cost_tables::{CostTables, CostsBetween, PidText};
use doc_pieces::push_comma;
use std::alloc::{AllocError, Global};
use std::marker::Model;
use text_buffer::TextBuffer;

/// The costs of a column between sources and destinations. A contract sees them as they are told: by source, for each
/// destination.
#[derive(Drop)]
pub(crate) struct ColumnBetween<'a> {
    costs: CostsBetween,
    /// How they are told; as they are where there is none.
    scale: Option<&'a Scale>,
}

impl<'a> Model for ColumnBetween<'a> {
    ghost use Rattle.std.specs.Prelude.{option_map, unwrap_or};
    ghost use Rattle.cost_filters.specs.declared.columns.Scale.TheVariants as told_as;
    ghost use Rattle.cost_filters.specs.Between.{Costs, costs_as};

    ghost Value = { Costs };

    ghost view = { λ column.
        costs_as (unwrap_or (option_map (λ of. of.now) column.scale) told_as.Numerical) column.costs };
}

impl ColumnBetween<'_> {
    /// The cost between a source and a destination at these places.
    pub(crate) fn cost(&self, src: usize, dst: usize) -> Option<u64>
        ensures { result ≡ cost_between self.now src dst }
    {
        let cost = cost_at(&self.costs, src, dst);
        match self.scale {
            Some(scale) => scaled(scale, cost),
            None => cost,
        }
    }

    /// The costs from the source at a place, where they are told as they are.
    pub(crate) fn unscaled(&self, src: usize) -> Option<&[Option<u64>]>
        ensures { IfSome result (λ costs. costs.now ≡ unwrap_or (slice_get self.now src) []) }
    {
        match self.scale {
            Some(scale) => unscaled(scale, &self.costs, src),
            None => row_at(&self.costs, src),
        }
    }

    /// Whether there is one.
    pub(crate) fn has_cost(&self, src: usize, dst: usize) -> bool
        ensures { result ≡ is_some (cost_between self.now src dst) }
    {
        cost_at(&self.costs, src, dst).is_some()
    }
}

/// The costs from the source at a place, where this scale leaves them as they are.
fn unscaled<'c>(scale: &Scale, costs: &'c CostsBetween, src: usize) -> Option<&'c [Option<u64>]>
    ensures { IfSome result (λ row. row.now ≡ unwrap_or (slice_get (costs_as scale.now costs.now) src) []) }
{
    match scale {
        Scale::Numerical => row_at(costs, src),
        Scale::Ordinal(_) => None,
    }
}

/// The costs from the source at a place, as they are.
fn row_at(costs: &CostsBetween, src: usize) -> Option<&[Option<u64>]>
    ensures { IfSome result (λ row. row.now ≡ unwrap_or (slice_get costs.now src) []) }
{
    costs.from_source(src)
}

/// The cost between a source and a destination at these places, as it is.
fn cost_at(costs: &CostsBetween, src: usize, dst: usize) -> Option<u64>
    ensures { result ≡ cost_between costs.now src dst }
{
    *costs.from_source(src)?.get(dst)?
}

/// Those of columns, as they are told. For each column one pass over the metrics, and one binary search for each
/// source.
pub(crate) fn told_between<'a>(
    alloc: Global,
    tables: &'a CostTables,
    net: &NetName,
    columns: &'a [Column],
    srcs: &[PidText],
    dsts: &[PidText],
) -> Result<Vec<ColumnBetween<'a>>, AllocError>
    ensures { IfOk result (λ told. told.items ≡ told_between tables.now net.now columns.now srcs.now dsts.now) }
{
    let mut told = Vec::with_capacity(alloc, columns.len())?;
    for column in columns {
        told.push(of_column(alloc, tables, net, column, srcs, dsts)?)?;
    }
    Ok(told)
}

fn of_column<'a>(
    alloc: Global,
    tables: &'a CostTables,
    net: &NetName,
    column: &'a Column,
    srcs: &[PidText],
    dsts: &[PidText],
) -> Result<ColumnBetween<'a>, AllocError>
    ensures { IfOk result (λ told. told
        ≡ column_between tables.now net.now srcs.now dsts.now column.now.metric column.now.scale) }
{
    Ok(ColumnBetween {
        costs: tables.costs_between(alloc, net, &column.metric, srcs, dsts)?,
        scale: Some(&column.scale),
    })
}

/// Those of the metrics of types, as they are.
pub(crate) fn tested_between<'a>(
    alloc: Global,
    tables: &'a CostTables,
    net: &NetName,
    types: &[CostType],
    srcs: &[PidText],
    dsts: &[PidText],
) -> Result<Vec<ColumnBetween<'a>>, AllocError>
    ensures { IfOk result (λ tested. tested.items ≡ tested_between tables.now net.now types.now srcs.now dsts.now) }
{
    let mut tested = Vec::with_capacity(alloc, types.len())?;
    for one in types {
        tested.push(of_type(alloc, tables, net, one, srcs, dsts)?)?;
    }
    Ok(tested)
}

fn of_type<'a>(
    alloc: Global,
    tables: &'a CostTables,
    net: &NetName,
    one: &CostType,
    srcs: &[PidText],
    dsts: &[PidText],
) -> Result<ColumnBetween<'a>, AllocError>
    ensures { IfOk result (λ tested. tested
        ≡ column_between tables.now net.now srcs.now dsts.now one.now.metric told_as.Numerical) }
{
    Ok(ColumnBetween {
        costs: tables.costs_between(alloc, net, &one.metric, srcs, dsts)?,
        scale: None,
    })
}

/// The costs of columns between a source and a destination at these places.
pub(crate) fn costs_at(
    alloc: Global,
    columns: &[ColumnBetween],
    src: usize,
    dst: usize,
) -> Result<Vec<Option<u64>>, AllocError>
    ensures { IfOk result (λ costs. costs.items ≡ costs_at dst (columns_at src columns.now)) }
{
    let mut costs = Vec::with_capacity(alloc, columns.len())?;
    for column in columns {
        costs.push(column.cost(src, dst))?;
    }
    Ok(costs)
}

/// Whether one of the columns has a cost there.
pub(crate) fn has_cost(columns: &[ColumnBetween], src: usize, dst: usize) -> bool
    ensures { result ≡ has_cost (costs_at dst (columns_at src columns.now)) }
{
    for column in columns {
        if column.has_cost(src, dst) {
            return true;
        }
    }
    false
}

/// Puts the costs of columns there: in the form of several a list, else the one.
pub(crate) fn push_costs(
    columns: &[ColumnBetween],
    multi: bool,
    src: usize,
    dst: usize,
    out: &mut TextBuffer,
) -> Result<(), AllocError>
    ensures { OnOk result (out.new ≡ out.old
        ++ compact_text (costs_data multi (costs_at dst (columns_at src columns.now)))) }
{
    if multi {
        out.push(b"[")?;
        return push_each(columns, src, dst, out);
    }
    match columns.first() {
        Some(column) => push_cost(column.cost(src, dst), out),
        None => push_cost(None, out),
    }
}

/// Puts the costs of columns there, with the bracket behind them.
fn push_each(
    columns: &[ColumnBetween],
    src: usize,
    dst: usize,
    out: &mut TextBuffer,
) -> Result<(), AllocError>
    ensures { OnOk result (out.new ≡ out.old ++ items_text false
        (items_of (map number_data (costs_at dst (columns_at src columns.now))))) }
{
    let mut later = false;
    for column in columns {
        push_comma(later, out)?;
        push_cost(column.cost(src, dst), out)?;
        later = true;
    }
    out.push(b"]")?;
    Ok(())
}
