ghost use Rattle.std.specs.Prelude.{◌≡◌, true, IfOk};
ghost use Rattle.alto_rows.specs.Good.{AreGood};
ghost use Rattle.alto_rows.specs.Versions.{is_declared};
ghost use Rattle.json_tree.specs.Tree.{data_of};
ghost use Rattle.edge_patch.specs.Merge.{merge_form};

use alto_rows::{Key, Resource, RowStore};
use cost_docs::{CostMap, cost_places};
use json_tree::Tree;
use net_docs::{NetMap, net_places};
use prop_docs::{PropMap, prop_places};
use std::alloc::{AllocError, Global};

/// What leads to the document of a declared resource from one that differs at these keys, as a merge patch (RFC 7396):
/// the body of an edge between two versions (RFC 9569, section 3). Costs a few searches for each group and member that
/// the keys touch, and one walk over each such member's value.
pub fn merge_edge<R: RowStore>(
    alloc: Global,
    resource: &Resource,
    after: &R,
    keys: &[Key],
) -> Result<Tree, AllocError>
    requires good { AreGood (R.rows after.now) }
    requires declared { is_declared (R.rows after.now) resource.now ≡ true }
    ensures { IfOk result (λ tree. data_of tree ≡ merge_form resource.now (R.rows after.now) keys.now) }
{
    match resource {
        Resource::Net(net) => {
            let places = net_places(alloc, net, keys)?;
            alto_maps::merge_edge(alloc, &NetMap::new(after, net), &places)
        }
        Resource::Cost(net, metric) => {
            let places = cost_places(alloc, net, metric, keys)?;
            alto_maps::merge_edge(alloc, &CostMap::new(after, net, metric), &places)
        }
        Resource::Prop(net) => {
            let places = prop_places(alloc, net, keys)?;
            alto_maps::merge_edge(alloc, &PropMap::new(after, net), &places)
        }
    }
}
