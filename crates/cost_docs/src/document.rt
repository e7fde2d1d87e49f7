ghost use Rattle.std.specs.Prelude.{◌≡◌, true, IfOk};
ghost use Rattle.serde_json.specs.Written.{compact_text};
ghost use Rattle.alto_rows.specs.Good.{AreGood};
ghost use Rattle.alto_rows.specs.Rows.{has_row};
ghost use Rattle.alto_rows.specs.declared.key.Key.TheVariants as key;
ghost use Rattle.json_tree.specs.Tree.{data_of};
ghost use Rattle.cost_docs.specs.CostMap as spec;
ghost use Rattle.cost_docs.specs.Ordinal.{ordinal_map};

use crate::groups::ordinal_groups;
use crate::meta::meta;
use crate::source::CostMap;
use alto_maps::{snapshot, write_document};
use alto_names::{Metric, NetName};
use alto_rows::RowStore;
use json_tree::{Members, Tree};
use std::alloc::{AllocError, Global};

/// The text of the cost map of a declared metric (RFC 7285, section 11.2.3.6), with no space, written without a tree.
/// Costs two searches for the tag, and one walk over the metric's rows.
pub fn cost_text<R: RowStore>(
    alloc: Global,
    rows: &R,
    net: &NetName,
    metric: &Metric,
) -> Result<Vec<u8>, AllocError>
    requires good { AreGood (R.rows rows.now) }
    requires declared { has_row (R.rows rows.now) (key.Metric net.now metric.now) ≡ true }
    ensures { IfOk result (λ bytes. bytes.items ≡ compact_text (spec.cost_map (R.rows rows.now) net.now metric.now)) }
{
    write_document(alloc, &CostMap::new(rows, net, metric))
}

/// The same map as a tree. Costs two searches for the tag, one walk over the metric's rows, and for each source one
/// search and one walk over its rows.
pub fn cost_doc<R: RowStore>(
    alloc: Global,
    rows: &R,
    net: &NetName,
    metric: &Metric,
) -> Result<Tree, AllocError>
    requires good { AreGood (R.rows rows.now) }
    requires declared { has_row (R.rows rows.now) (key.Metric net.now metric.now) ≡ true }
    ensures { IfOk result (λ tree. data_of tree ≡ spec.cost_map (R.rows rows.now) net.now metric.now) }
{
    snapshot(alloc, &CostMap::new(rows, net, metric))
}

/// The map with ranks in place of costs (RFC 7285, section 6.1.2.2), as a tree. Costs what the map costs, and another
/// walk and a sort for the ranks.
#[tactic(auto, unfolding(alto_maps::specs::Shape::document))]
pub fn ordinal_doc<R: RowStore>(
    alloc: Global,
    rows: &R,
    net: &NetName,
    metric: &Metric,
) -> Result<Tree, AllocError>
    requires good { AreGood (R.rows rows.now) }
    requires declared { has_row (R.rows rows.now) (key.Metric net.now metric.now) ≡ true }
    ensures { IfOk result (λ tree. data_of tree ≡ ordinal_map (R.rows rows.now) net.now metric.now) }
{
    let mut document = Members::new(alloc);
    document.put(alloc, "meta", meta(alloc, rows, net, metric, "ordinal")?)?;
    document.put(alloc, "cost-map", ordinal_groups(alloc, rows, net, metric)?)?;
    Ok(document.into_tree())
}
