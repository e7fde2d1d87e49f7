ghost use Rattle.std.specs.Prelude.{◌≡◌, true, IfOk};
ghost use Rattle.serde_json.specs.Written.{compact_text};
ghost use Rattle.json_tree.specs.Tree.{data_of};
ghost use Rattle.alto_rows.specs.Good.{AreGood};
ghost use Rattle.alto_rows.specs.Rows.{has_row};
ghost use Rattle.alto_rows.specs.declared.key.Key.TheVariants as key;
ghost use Rattle.prop_docs.specs.PropertyMap as spec;

use crate::source::PropMap;
use alto_maps::{snapshot, write_document};
use alto_names::NetName;
use alto_rows::RowStore;
use json_tree::Tree;
use std::alloc::{AllocError, Global};

/// The text of the property map of a declared network (RFC 9240, section 8), with no space, written without a tree.
/// Costs two searches for the tag, one walk over the rows of the network's properties that sorts the texts of their
/// entities, and for each entity one search and one walk over the rows of its properties.
pub fn prop_text<R: RowStore>(alloc: Global, rows: &R, net: &NetName) -> Result<Vec<u8>, AllocError>
    requires good { AreGood (R.rows rows.now) }
    requires declared { has_row (R.rows rows.now) (key.Net net.now) ≡ true }
    ensures { IfOk result (λ bytes. bytes.items ≡ compact_text (spec.property_map (R.rows rows.now) net.now)) }
{
    write_document(alloc, &PropMap::new(rows, net))
}

/// The same map as a tree, at the same cost.
pub fn prop_doc<R: RowStore>(alloc: Global, rows: &R, net: &NetName) -> Result<Tree, AllocError>
    requires good { AreGood (R.rows rows.now) }
    requires declared { has_row (R.rows rows.now) (key.Net net.now) ≡ true }
    ensures { IfOk result (λ tree. data_of tree ≡ spec.property_map (R.rows rows.now) net.now) }
{
    snapshot(alloc, &PropMap::new(rows, net))
}
