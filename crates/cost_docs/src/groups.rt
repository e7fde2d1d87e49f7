//! The groups of a cost map, as trees: each source with its destinations, at their costs or at the ranks of these.
ghost use Rattle.std.specs.Prelude.{◌≡◌, IfOk, map, option_map};
ghost use Rattle.json_tree.specs.Tree.{data_of};
ghost use Rattle.alto_maps.specs.Places.{set_of};
ghost use Rattle.alto_maps.specs.Shape.{section_object};
ghost use Rattle.alto_rows.specs.Good.{AreGood};
ghost use Rattle.cost_docs.specs.CostMap.{sources_of};
ghost use Rattle.cost_docs.specs.Costs.{group_of, group_shown, groups_among, groups_shown, shown};
ghost use Rattle.cost_docs.specs.Ordinal.{ordinal_face};

use crate::costs::{Cost, costs_within};
use crate::ranks::Ranks;
use alto_names::{Metric, NetName, PidName};
use alto_rows::{RowStore, Span};
use json_tree::{Members, Tree};
use std::alloc::{AllocError, Global};
use std::collections::BTreeSet;

/// All groups, with ranks where these are given. One walk over the rows of the metric, and for each source one search
/// and one walk over its rows.
pub(crate) fn groups<R: RowStore>(
    alloc: Global,
    rows: &R,
    net: &NetName,
    metric: &Metric,
    ranks: Option<&Ranks>,
) -> Result<Tree, AllocError>
    requires { AreGood (R.rows rows.now) }
    ensures { IfOk result (λ tree. data_of tree
        ≡ groups_shown (option_map (λ ranks. ranks.now) ranks.entry) (R.rows rows.now) net.now metric.now) }
{
    let sources = sources(alloc, rows, net, metric)?;
    groups_of(alloc, rows, net, metric, &sources, ranks)
}

/// The groups of these sources.
fn groups_of<R: RowStore>(
    alloc: Global,
    rows: &R,
    net: &NetName,
    metric: &Metric,
    sources: &[PidName],
    ranks: Option<&Ranks>,
) -> Result<Tree, AllocError>
    requires { AreGood (R.rows rows.now) }
    ensures { IfOk result (λ tree. data_of tree ≡ groups_among
        (option_map (λ ranks. ranks.now) ranks.entry) (R.rows rows.now) net.now metric.now sources.now) }
{
    let mut groups = Members::new(alloc);
    for source in sources {
        groups.put(
            alloc,
            source.as_str(),
            group(alloc, rows, net, metric, source, ranks)?,
        )?;
    }
    Ok(groups.into_tree())
}

/// The group of a source, with ranks where these are given. One search and one walk over its rows.
pub(crate) fn group<R: RowStore>(
    alloc: Global,
    rows: &R,
    net: &NetName,
    metric: &Metric,
    source: &PidName,
    ranks: Option<&Ranks>,
) -> Result<Tree, AllocError>
    requires { AreGood (R.rows rows.now) }
    ensures { IfOk result (λ tree. data_of tree ≡ group_shown
        (option_map (λ ranks. ranks.now) ranks.entry) (R.rows rows.now) net.now metric.now source.now) }
{
    let span = Span::CostsFrom(net.clone()?, metric.clone()?, source.clone()?);
    let costs = costs_within(alloc, rows, span)?;
    group_of(alloc, &costs, ranks)
}

/// The group of these costs, which are those of a source.
fn group_of(alloc: Global, costs: &[Cost], ranks: Option<&Ranks>) -> Result<Tree, AllocError>
    ensures { IfOk result (λ tree. data_of tree
        ≡ group_of (option_map (λ ranks. ranks.now) ranks.entry) costs.now) }
{
    let mut group = Members::new(alloc);
    for cost in costs {
        let number = shown(ranks, cost.amount);
        group.put(alloc, cost.destination.as_str(), Tree::number(number))?;
    }
    Ok(group.into_tree())
}

/// All groups, with ranks in place of costs. Costs what the groups cost, and another walk and a sort for the ranks.
pub(crate) fn ordinal_groups<R: RowStore>(
    alloc: Global,
    rows: &R,
    net: &NetName,
    metric: &Metric,
) -> Result<Tree, AllocError>
    requires { AreGood (R.rows rows.now) }
    ensures { IfOk result (λ tree. data_of tree
        ≡ section_object (ordinal_face net.now metric.now (R.rows rows.now))) }
{
    let ranks = Ranks::of(alloc, rows, net, metric)?;
    groups(alloc, rows, net, metric, Some(&ranks))
}

/// The number that stands for a cost: its rank, or, with no ranks, the cost itself.
fn shown(ranks: Option<&Ranks>, cost: u64) -> u64
    ensures { result ≡ shown (option_map (λ ranks. ranks.now) ranks.entry) cost }
{
    match ranks {
        Some(ranks) => ranks.rank(cost),
        None => cost,
    }
}

/// The sources that have a cost of the metric, in byte order. One walk over its rows.
fn sources<R: RowStore>(
    alloc: Global,
    rows: &R,
    net: &NetName,
    metric: &Metric,
) -> Result<Vec<PidName>, AllocError>
    requires { AreGood (R.rows rows.now) }
    ensures { IfOk result (λ sources. sources.items ≡ sources_of (R.rows rows.now) net.now metric.now) }
{
    let costs = costs_within(alloc, rows, Span::CostsIn(net.clone()?, metric.clone()?))?;
    distinct_sources(alloc, &costs)
}

/// The distinct sources of costs, in byte order.
#[tactic(auto, unfolding(alto_maps::specs::Places::set_of))]
fn distinct_sources(alloc: Global, costs: &[Cost]) -> Result<Vec<PidName>, AllocError>
    ensures { IfOk result (λ sources. sources.items ≡ set_of (map (λ cost. cost.source) costs.now)) }
{
    let mut sources = BTreeSet::new(alloc);
    for cost in costs {
        sources.insert(cost.source.clone()?)?;
    }
    sources.into_iter().collect(alloc)
}
