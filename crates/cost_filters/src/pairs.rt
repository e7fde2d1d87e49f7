//! The pairs that cost types and constraints make.
ghost use Rattle.std.specs.Prelude.{◌≡◌, IfOk, length, map};
ghost use Rattle.alto_rows.specs.Good.{AreGood};
ghost use Rattle.cost_tables.specs.Tables.{AreCostsOf, IsSetOf};
ghost use Rattle.cost_filters.specs.Between.{AreShown, columns_at, flags_between, flags_from, tested_between};
ghost use Rattle.cost_filters.specs.Columns.{columns_of, reached};
ghost use Rattle.cost_filters.specs.Holds.{one_holds};
ghost use Rattle.cost_filters.specs.Pairs.{is_shown, one_is_empty, pair_costs};

use crate::column_between::{ColumnBetween, costs_at, has_cost, tested_between, told_between};
use crate::columns::{Column, columns_of, reached_once};
use crate::pairs_between::{PairsBetween, Shown};
use crate::types::CostType;
use alto_names::{NetName, PidName};
use alto_rows::RowStore;
use cost_rule::Constraint;
use cost_tables::{CostTables, PidText};
use std::alloc::{AllocError, Global};
use std::marker::Model;

/// Cost types and constraints that are asked of the pairs of a network, made ready for many pairs. A contract sees them
/// with the rows and the network. The tables tell the costs of the rows.
#[derive(Drop)]
pub struct Pairs<'a, R: RowStore> {
    rows: &'a R,
    tables: &'a CostTables,
    net: &'a NetName,
    types: &'a [CostType],
    tested: &'a [CostType],
    alternatives: &'a [Vec<Constraint>],
    columns: Vec<Column>,
}

impl<'a, R: RowStore> Model for Pairs<'a, R> {
    ghost use Rattle.std.specs.Prelude.{◌≡◌, map};
    ghost use Rattle.alto_rows.specs.Good.{AreGood};
    ghost use Rattle.cost_tables.specs.Tables.{AreCostsOf};
    ghost use Rattle.cost_filters.specs.Columns.{columns_of};
    ghost use Rattle.cost_filters.specs.Pairs.{PairsData};

    ghost Value = { PairsData };

    ghost view = { λ pairs. record {
      rows = R.rows pairs.rows.now;
      net = pairs.net.now;
      types = pairs.types.now;
      tested = pairs.tested.now;
      alternatives = map (λ constraints. constraints.items) pairs.alternatives.now;
    } };

    ghost invariant = { λ pairs. AreGood (R.rows pairs.rows.now)
        × AreCostsOf (R.rows pairs.rows.now) pairs.tables.now
        × (pairs.columns.items ≡ columns_of (R.rows pairs.rows.now) pairs.net.now pairs.types.now) };
}

impl<'a, R: RowStore> Pairs<'a, R> {
    /// Those of an ask at rows, whose costs the tables tell. For each ordinal type one walk over its metric's rows and
    /// one sort of their costs.
    pub fn new(
        alloc: Global,
        rows: &'a R,
        tables: &'a CostTables,
        net: &'a NetName,
        types: &'a [CostType],
        tested: &'a [CostType],
        alternatives: &'a [Vec<Constraint>],
    ) -> Result<Pairs<'a, R>, AllocError>
        requires good { AreGood (R.rows rows.now) }
        requires costs { AreCostsOf (R.rows rows.now) tables.now }
        ensures { IfOk result (λ pairs. pairs ≡ record {
          rows = R.rows rows.now;
          net = net.now;
          types = types.now;
          tested = tested.now;
          alternatives = map (λ constraints. constraints.items) alternatives.now;
        }) }
    {
        Ok(Pairs {
            rows,
            tables,
            net,
            types,
            tested,
            alternatives,
            columns: columns_of(alloc, rows, net, types)?,
        })
    }

    /// The PIDs to which a source has a cost by an asked type, in byte order. For each type one search, and one walk
    /// over the source's rows; for several types one sort.
    pub(crate) fn reached(&self, alloc: Global, src: &PidText) -> Result<Vec<PidName>, AllocError>
        ensures { IfOk result (λ names. IsSetOf names.items
            (reached self.now.rows self.now.net (columns_of self.now.rows self.now.net self.now.types) src.now)) }
    {
        let src = src.to_name(alloc)?;
        reached_once(alloc, self.rows, self.net, &self.columns, &src)
    }

    /// The pairs between sources and destinations. For each type that is asked for or tested one pass over the metrics,
    /// and one search for each source. Where the destinations stand is found once for all sources in a row that
    /// have the same. Where no constraint tests a pair, no tested type costs anything.
    pub fn between(
        &self,
        alloc: Global,
        srcs: &[PidText],
        dsts: &[PidText],
    ) -> Result<PairsBetween<'_>, AllocError>
        ensures { IfOk result (λ pairs. pairs ≡ map (λ src. map (pair_costs self.now src) dsts.now) srcs.now) }
    {
        let told = told_between(alloc, self.tables, self.net, &self.columns, srcs, dsts)?;
        let shown = shown_between(
            alloc,
            self.tables,
            self.net,
            self.tested,
            self.alternatives,
            &told,
            srcs,
            dsts,
        )?;
        Ok(PairsBetween::new(told, shown, srcs.len(), dsts.len()))
    }
}

/// Which of the costs between sources and destinations make a pair. Where no constraint tests a pair, no cost is looked
/// at.
fn shown_between(
    alloc: Global,
    tables: &CostTables,
    net: &NetName,
    types: &[CostType],
    alternatives: &[Vec<Constraint>],
    told: &[ColumnBetween],
    srcs: &[PidText],
    dsts: &[PidText],
) -> Result<Shown, AllocError>
    ensures { IfOk result (AreShown (map (λ constraints. constraints.items) alternatives.now) told.now
        (tested_between tables.now net.now types.now srcs.now dsts.now) (length srcs.now) (length dsts.now)) }
{
    if one_is_empty(alternatives) {
        return Ok(Shown::WithCost);
    }
    let tested = tested_between(alloc, tables, net, types, srcs, dsts)?;
    let flags = all_tested(alloc, alternatives, told, &tested, srcs.len(), dsts.len())?;
    Ok(Shown::Flagged(flags))
}

/// Which of the costs between so many sources and destinations make a pair, by source.
fn all_tested(
    alloc: Global,
    alternatives: &[Vec<Constraint>],
    told: &[ColumnBetween],
    tested: &[ColumnBetween],
    srcs: usize,
    dsts: usize,
) -> Result<Vec<Vec<bool>>, AllocError>
    ensures { IfOk result (λ flags. map (λ row. row.items) flags.items
        ≡ flags_between (map (λ constraints. constraints.items) alternatives.now) told.now tested.now srcs dsts) }
{
    let mut flags = Vec::with_capacity(alloc, srcs)?;
    for src in 0..srcs {
        flags.push(tested_from(alloc, alternatives, told, tested, src, dsts)?)?;
    }
    Ok(flags)
}

/// Those of one source.
fn tested_from(
    alloc: Global,
    alternatives: &[Vec<Constraint>],
    told: &[ColumnBetween],
    tested: &[ColumnBetween],
    src: usize,
    dsts: usize,
) -> Result<Vec<bool>, AllocError>
    ensures { IfOk result (λ flags. flags.items
        ≡ flags_from (map (λ constraints. constraints.items) alternatives.now) told.now tested.now dsts src) }
{
    let mut flags = Vec::with_capacity(alloc, dsts)?;
    for dst in 0..dsts {
        flags.push(is_shown(alloc, alternatives, told, tested, src, dst)?)?;
    }
    Ok(flags)
}

/// Whether the costs between a source and a destination make a pair.
fn is_shown(
    alloc: Global,
    alternatives: &[Vec<Constraint>],
    told: &[ColumnBetween],
    tested: &[ColumnBetween],
    src: usize,
    dst: usize,
) -> Result<bool, AllocError>
    ensures { IfOk result (λ shown. shown ≡ is_shown (map (λ constraints. constraints.items) alternatives.now)
        (columns_at src told.now) (columns_at src tested.now) dst) }
{
    if !has_cost(told, src, dst) {
        return Ok(false);
    }
    if one_is_empty(alternatives) {
        return Ok(true);
    }
    let costs = costs_at(alloc, tested, src, dst)?;
    Ok(one_holds(alternatives, &costs))
}

/// Whether one of the lists has no constraint, so that they hold of every pair.
fn one_is_empty(alternatives: &[Vec<Constraint>]) -> bool
    ensures { result ≡ one_is_empty (map (λ constraints. constraints.items) alternatives.now) }
{
    for constraints in alternatives {
        if constraints.is_empty() {
            return true;
        }
    }
    false
}

/// Whether all constraints of one of the lists hold of a pair with these costs.
fn one_holds(alternatives: &[Vec<Constraint>], costs: &[Option<u64>]) -> bool
    ensures { result ≡ one_holds costs.now (map (λ constraints. constraints.items) alternatives.now) }
{
    cost_rule::one_holds(alternatives, costs)
}
