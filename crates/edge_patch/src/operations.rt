ghost use Rattle.std.specs.Prelude.{◌≡◌, true, IfOk};
ghost use Rattle.json_patch.specs.Operations.{operations_of};
ghost use Rattle.alto_rows.specs.Good.{AreGood};
ghost use Rattle.alto_rows.specs.Versions.{is_declared};
ghost use Rattle.edge_patch.specs.OperationForm.{operation_form};

use alto_rows::{Key, Resource, RowStore};
use cost_docs::{CostMap, cost_places};
use json_patch::Op;
use net_docs::{NetMap, net_places};
use prop_docs::{PropMap, prop_places};
use std::alloc::{AllocError, Global};

/// What leads from the document of a declared resource before to the one after, where they differ at these keys, as a
/// JSON Patch (RFC 6902). Costs what the merge patch costs, and a few searches more for each group and member in the
/// rows before.
pub fn json_edge<R: RowStore>(
    alloc: Global,
    resource: &Resource,
    before: &R,
    after: &R,
    keys: &[Key],
) -> Result<Vec<Op>, AllocError>
    requires good_before { AreGood (R.rows before.now) }
    requires good { AreGood (R.rows after.now) }
    requires declared { is_declared (R.rows after.now) resource.now ≡ true }
    ensures { IfOk result (λ ops. operations_of ops.items
        ≡ operation_form resource.now (R.rows before.now) (R.rows after.now) keys.now) }
{
    match resource {
        Resource::Net(net) => {
            let places = net_places(alloc, net, keys)?;
            let (before, after) = (NetMap::new(before, net), NetMap::new(after, net));
            alto_maps::json_edge(alloc, &before, &after, &places)
        }
        Resource::Cost(net, metric) => {
            let places = cost_places(alloc, net, metric, keys)?;
            let before = CostMap::new(before, net, metric);
            let after = CostMap::new(after, net, metric);
            alto_maps::json_edge(alloc, &before, &after, &places)
        }
        Resource::Prop(net) => {
            let places = prop_places(alloc, net, keys)?;
            let (before, after) = (PropMap::new(before, net), PropMap::new(after, net));
            alto_maps::json_edge(alloc, &before, &after, &places)
        }
    }
}
