ghost use Rattle.std.specs.Prelude.{◌≡◌, true, [], ◌∷◌, codes, IfOk};
ghost use Rattle.serde_json.specs.Data.{string};
ghost use Rattle.serde_json.specs.Written.{compact_text};
ghost use Rattle.alto_rows.specs.Good.{AreGood};
ghost use Rattle.alto_rows.specs.Rows.{has_row};
ghost use Rattle.alto_rows.specs.declared.key.Key.TheVariants as key;
ghost use Rattle.json_tree.specs.Document.{object_of};
ghost use Rattle.json_tree.specs.Tree.{data_of};
ghost use Rattle.net_docs.specs.NetworkMap as spec;

use crate::source::NetMap;
use crate::version::net_tag;
use alto_maps::{snapshot, write_document};
use alto_names::NetName;
use alto_rows::RowStore;
use json_tree::{Members, Tree};
use std::alloc::{AllocError, Global};

/// The text of the network map of a declared network (RFC 7285, section 11.2.1.6), with no space, written without a
/// tree. Costs two searches for the tag, one walk over the rows of the network's PIDs, and for each of them one search
/// and one walk over the rows of its prefixes.
pub fn net_text<R: RowStore>(alloc: Global, rows: &R, net: &NetName) -> Result<Vec<u8>, AllocError>
    requires good { AreGood (R.rows rows.now) }
    requires declared { has_row (R.rows rows.now) (key.Net net.now) ≡ true }
    ensures { IfOk result (λ bytes. bytes.items ≡ compact_text (spec.network_map (R.rows rows.now) net.now)) }
{
    write_document(alloc, &NetMap::new(rows, net))
}

/// The same map as a tree. Costs two searches for the tag, one walk over the rows of the network's PIDs, and one over
/// those of their prefixes.
pub fn net_doc<R: RowStore>(alloc: Global, rows: &R, net: &NetName) -> Result<Tree, AllocError>
    requires good { AreGood (R.rows rows.now) }
    requires declared { has_row (R.rows rows.now) (key.Net net.now) ≡ true }
    ensures { IfOk result (λ tree. data_of tree ≡ spec.network_map (R.rows rows.now) net.now) }
{
    snapshot(alloc, &NetMap::new(rows, net))
}

/// The `meta` member of a network map.
pub(crate) fn meta_of(alloc: Global, version_tag: Tree) -> Result<Tree, AllocError>
    ensures { IfOk result (λ tree. data_of tree ≡ object_of ((codes "vtag", data_of version_tag) ∷ [])) }
{
    let mut meta = Members::new(alloc);
    meta.put(alloc, "vtag", version_tag)?;
    Ok(meta.into_tree())
}

/// The version tag of a network's map (RFC 7285, section 10.3), by which the map's dependents name it too. Two
/// searches.
#[tactic(auto, unfolding(json_tree::specs::Tree::data_of, json_tree::specs::Document::with_member))]
pub fn version_tag<R: RowStore>(alloc: Global, rows: &R, net: &NetName) -> Result<Tree, AllocError>
    ensures { IfOk result (λ tree. data_of tree ≡ spec.version_tag (R.rows rows.now) net.now) }
{
    let tag = net_tag(alloc, rows, net)?;
    named_tag(alloc, net, Tree::Text(tag))
}

/// The version tag of a network's map that has this tag.
#[tactic(auto, unfolding(json_tree::specs::Document::with_member))]
fn named_tag(alloc: Global, net: &NetName, tag: Tree) -> Result<Tree, AllocError>
    ensures { IfOk result (λ tree. data_of tree
        ≡ object_of ((codes "resource-id", string net.now) ∷ (codes "tag", data_of tag) ∷ [])) }
{
    let id = Tree::text(alloc, net.as_str())?;
    let mut version = Members::new(alloc);
    version.put(alloc, "resource-id", id)?;
    version.put(alloc, "tag", tag)?;
    Ok(version.into_tree())
}
