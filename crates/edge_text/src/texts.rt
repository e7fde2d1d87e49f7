ghost use Rattle.std.specs.Prelude.{◌≡◌, true, IfOk};
ghost use Rattle.std.specs.List.Sorted.{IsStrictlySortedBy};
ghost use Rattle.serde_json.specs.Written.{compact_text};
ghost use Rattle.json_patch.specs.OperationList.{operations_data};
ghost use Rattle.alto_rows.specs.Good.{AreGood};
ghost use Rattle.alto_rows.specs.Order.{key_cmp};
ghost use Rattle.alto_rows.specs.Versions.{is_declared};
ghost use Rattle.edge_patch.specs.Merge.{merge_form};
ghost use Rattle.edge_patch.specs.OperationForm.{operation_form};

use crate::merge::cost_merge_text;
use crate::operations::cost_operations_text;
use alto_rows::{Key, Resource, RowStore};
use edge_patch::{json_edge, merge_edge};
use json_patch::ops_tree;
use json_tree::text;
use std::alloc::{AllocError, Global};

/// The text of what leads to the document of a declared resource from one that differs at these keys, which rise, as a
/// merge patch (RFC 7396): the body of an edge between two versions (RFC 9569, section 3).
///
/// Costs one search for each key of a cost map, and another for each source of which the first key has no cost any
/// more; of other maps, what their tree costs.
pub fn merge_text<R: RowStore>(
    alloc: Global,
    resource: &Resource,
    after: &R,
    keys: &[Key],
) -> Result<Vec<u8>, AllocError>
    requires good { AreGood (R.rows after.now) }
    requires declared { is_declared (R.rows after.now) resource.now ≡ true }
    requires rising { IsStrictlySortedBy key_cmp keys.now }
    ensures { IfOk result (λ bytes. bytes.items ≡ compact_text (merge_form resource.now (R.rows after.now) keys.now)) }
{
    match resource {
        Resource::Cost(net, metric) => cost_merge_text(alloc, after, net, metric, keys),
        Resource::Net(_) | Resource::Prop(_) => text(
            alloc,
            &merge_edge(alloc, resource, after, keys)?,
        ),
    }
}

/// The text of what leads from the document of a declared resource before to the one after, where they differ at these
/// keys, which rise, as a JSON Patch (RFC 6902).
///
/// Costs up to two searches for each key of a cost map, and two for each source; of other maps, what their tree costs.
pub fn operations_text<R: RowStore>(
    alloc: Global,
    resource: &Resource,
    before: &R,
    after: &R,
    keys: &[Key],
) -> Result<Vec<u8>, AllocError>
    requires good_before { AreGood (R.rows before.now) }
    requires good { AreGood (R.rows after.now) }
    requires declared { is_declared (R.rows after.now) resource.now ≡ true }
    requires rising { IsStrictlySortedBy key_cmp keys.now }
    ensures { IfOk result (λ bytes. bytes.items ≡ compact_text (operations_data
        (operation_form resource.now (R.rows before.now) (R.rows after.now) keys.now))) }
{
    match resource {
        Resource::Cost(net, metric) => {
            cost_operations_text(alloc, before, after, net, metric, keys)
        }
        Resource::Net(_) | Resource::Prop(_) => {
            let operations = json_edge(alloc, resource, before, after, keys)?;
            text(alloc, &ops_tree(alloc, &operations)?)
        }
    }
}
