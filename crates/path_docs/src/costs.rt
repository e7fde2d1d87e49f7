//! The first part of an answer.
ghost use Rattle.std.specs.Prelude.{◌≡◌, [], ◌∷◌, IfOk, codes, map};
ghost use Rattle.std.specs.List.{filter_map};
ghost use Rattle.serde_json.specs.Data.{string};
ghost use Rattle.json_tree.specs.Document.{object_of};
ghost use Rattle.json_tree.specs.Tree.{data_of};
ghost use Rattle.path_docs.specs.Found.{pair_member, source_member};
ghost use Rattle.path_docs.specs.PathCosts.{names_data, path_meta};

use crate::found::{Pair, Source};
use crate::meta::path_meta;
use alto_names::{AneName, NetName};
use alto_rows::RowStore;
use json_tree::{Members, Tree};
use std::alloc::{AllocError, Global};

/// The cost map of these sources.
pub(crate) fn costs_part<R: RowStore>(
    alloc: Global,
    rows: &R,
    net: &NetName,
    sources: &[Source<'_>],
    n: u64,
) -> Result<Tree, AllocError>
    ensures { IfOk result (λ tree. data_of tree
        ≡ object_of ((codes "meta", path_meta (R.rows rows.now) net.now n)
        ∷ (codes "cost-map", object_of (filter_map source_member sources.now)) ∷ [])) }
{
    let mut document = Members::new(alloc);
    document.put(alloc, "meta", path_meta(alloc, rows, net, n)?)?;
    document.put(alloc, "cost-map", groups(alloc, sources)?)?;
    Ok(document.into_tree())
}

/// The groups of those of these sources that have a pair.
fn groups(alloc: Global, sources: &[Source<'_>]) -> Result<Tree, AllocError>
    ensures { IfOk result (λ tree. data_of tree ≡ object_of (filter_map source_member sources.now)) }
{
    let mut groups = Members::new(alloc);
    for source in sources {
        if !source.pairs.is_empty() {
            groups.put(alloc, source.src.as_str(), group(alloc, &source.pairs)?)?;
        }
    }
    Ok(groups.into_tree())
}

/// The group of a source with these pairs.
fn group(alloc: Global, pairs: &[Pair<'_>]) -> Result<Tree, AllocError>
    ensures { IfOk result (λ tree. data_of tree ≡ object_of (map pair_member pairs.now)) }
{
    let mut group = Members::new(alloc);
    for pair in pairs {
        group.put(alloc, pair.dst.as_str(), names_data(alloc, pair.anes)?)?;
    }
    Ok(group.into_tree())
}

/// The names as a list.
fn names_data(alloc: Global, names: &[AneName]) -> Result<Tree, AllocError>
    ensures { IfOk result (λ tree. data_of tree ≡ names_data names.now) }
{
    Ok(Tree::list(texts(alloc, names)?))
}

fn texts(alloc: Global, names: &[AneName]) -> Result<Vec<Tree>, AllocError>
    ensures { IfOk result (λ trees. map data_of trees.items ≡ map string names.now) }
{
    let mut trees = Vec::with_capacity(alloc, names.len())?;
    for name in names {
        trees.push(Tree::text(alloc, name.as_str())?)?;
    }
    Ok(trees)
}
