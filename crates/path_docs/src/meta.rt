//! The cost type of path vectors, and the version tag of the first part.
ghost use Rattle.std.specs.Prelude.{◌≡◌, ◌++◌, IfOk, codes, decimal};
ghost use Rattle.json_tree.specs.Tree.{data_of};
ghost use Rattle.alto_rows.specs.Versions.{epoch_of};
ghost use Rattle.path_docs.specs.PathCosts.{path_meta, path_tag, path_type_data};

use alto_names::NetName;
use alto_rows::RowStore;
use json_tree::{Members, Name, Tree};
use net_docs::{dependent_tags, epoch};
use std::alloc::{AllocError, Global};

/// The meta of the first part. Three searches.
#[tactic(auto, unfolding(json_tree::specs::Document::with_member))]
pub(crate) fn path_meta<R: RowStore>(
    alloc: Global,
    rows: &R,
    net: &NetName,
    n: u64,
) -> Result<Tree, AllocError>
    ensures { IfOk result (λ tree. data_of tree ≡ path_meta (R.rows rows.now) net.now n) }
{
    let mut meta = Members::new(alloc);
    meta.put(alloc, "cost-type", path_type(alloc)?)?;
    meta.put(alloc, "dependent-vtags", dependent_tags(alloc, rows, net)?)?;
    meta.put(alloc, "vtag", path_tag(alloc, rows, net, n)?)?;
    Ok(meta.into_tree())
}

/// The cost type.
#[tactic(auto, unfolding(json_tree::specs::Document::with_member))]
fn path_type(alloc: Global) -> Result<Tree, AllocError>
    ensures { IfOk result (λ tree. data_of tree ≡ path_type_data) }
{
    let mut members = Members::new(alloc);
    members.put(alloc, "cost-metric", Tree::text(alloc, "ane-path")?)?;
    members.put(alloc, "cost-mode", Tree::text(alloc, "array")?)?;
    Ok(members.into_tree())
}

/// The version tag of the first part, after so many batches (RFC 9275, section 6.6). One search.
#[tactic(auto, unfolding(json_tree::specs::Document::with_member))]
pub(crate) fn path_tag<R: RowStore>(
    alloc: Global,
    rows: &R,
    net: &NetName,
    n: u64,
) -> Result<Tree, AllocError>
    ensures { IfOk result (λ tree. data_of tree ≡ path_tag (R.rows rows.now) net.now n) }
{
    let resource = part_id(alloc, net)?;
    let tag = batch_tag(alloc, rows, n)?;
    let mut members = Members::new(alloc);
    members.put(alloc, "resource-id", Tree::from_name(resource))?;
    members.put(alloc, "tag", Tree::from_name(tag))?;
    Ok(members.into_tree())
}

/// The resource id of the first part.
fn part_id(alloc: Global, net: &NetName) -> Result<Name, AllocError>
    ensures { IfOk result (λ name. name ≡ net.now ++ codes ":path.costmap") }
{
    Ok(Name::new(format!(in alloc; "{net}:path.costmap")?))
}

/// The tag after so many batches.
fn batch_tag<R: RowStore>(alloc: Global, rows: &R, n: u64) -> Result<Name, AllocError>
    ensures { IfOk result (λ name. name ≡ epoch_of (R.rows rows.now) ++ codes "-" ++ decimal n) }
{
    let epoch = epoch(rows);
    Ok(Name::new(format!(in alloc; "{epoch}-{n}")?))
}
