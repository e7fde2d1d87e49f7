//! The meta of a cost map, as a tree and as JSON text.
ghost use Rattle.std.specs.Prelude.{◌≡◌, codes, IfOk, OnOk};
ghost use Rattle.json_tree.specs.Tree.{data_of};
ghost use Rattle.alto_maps.specs.Writing.{AddsMember, AddsValue};
ghost use Rattle.cost_docs.specs.CostMap as spec;

use alto_names::{Metric, NetName};
use alto_rows::RowStore;
use json::Writer;
use json_tree::{Members, Tree};
use net_docs::{dependent_tags, write_dependent_tags, write_text};
use std::alloc::{AllocError, Global};

/// The meta of a map whose numbers are of this mode. Two searches.
#[tactic(auto, unfolding(json_tree::specs::Document::with_member))]
pub(crate) fn meta<R: RowStore>(
    alloc: Global,
    rows: &R,
    net: &NetName,
    metric: &Metric,
    mode: &str,
) -> Result<Tree, AllocError>
    ensures { IfOk result (λ tree. data_of tree
        ≡ spec.cost_meta net.now metric.now mode.now (R.rows rows.now)) }
{
    let mut meta = Members::new(alloc);
    meta.put(alloc, "cost-type", cost_type(alloc, metric, mode)?)?;
    meta.put(alloc, "dependent-vtags", dependent_tags(alloc, rows, net)?)?;
    Ok(meta.into_tree())
}

/// A cost type.
#[tactic(auto, unfolding(json_tree::specs::Document::with_member))]
fn cost_type(alloc: Global, metric: &Metric, mode: &str) -> Result<Tree, AllocError>
    ensures { IfOk result (λ tree. data_of tree ≡ spec.cost_type metric.now mode.now) }
{
    let mut members = Members::new(alloc);
    members.put(alloc, "cost-metric", Tree::text(alloc, metric.as_str())?)?;
    members.put(alloc, "cost-mode", Tree::text(alloc, mode)?)?;
    Ok(members.into_tree())
}

/// Writes the meta of a map whose numbers are costs. Two searches.
pub(crate) fn write_meta<R: RowStore>(
    alloc: Global,
    rows: &R,
    net: &NetName,
    metric: &Metric,
    out: &mut Writer,
) -> Result<(), AllocError>
    ensures { OnOk result (AddsValue
        (spec.cost_meta net.now metric.now (codes "numerical") (R.rows rows.now)) out.old out.new) }
{
    out.begin_object()?;
    write_cost_type(metric, out)?;
    write_dependent_tags(alloc, rows, net, out)?;
    out.end_object()
}

/// Writes the cost type with its name.
fn write_cost_type(metric: &Metric, out: &mut Writer) -> Result<(), AllocError>
    ensures { OnOk result (AddsMember (codes "cost-type")
        (spec.cost_type metric.now (codes "numerical")) out.old out.new) }
{
    out.key("cost-type")?;
    out.begin_object()?;
    write_text(out, "cost-metric", metric.as_str())?;
    write_text(out, "cost-mode", "numerical")?;
    out.end_object()
}
