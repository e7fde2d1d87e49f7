//! Lists of texts.
ghost use Rattle.std.specs.Prelude.{◌≡◌, [], ◌∷◌, IfOk};
ghost use Rattle.json_tree.specs.Tree.{data_of};
ghost use Rattle.alto_maps.specs.Places.{set_of};
ghost use Rattle.alto_directory.specs.Entry.{texts};

use json_tree::{Name, Tree};
use std::alloc::{AllocError, Global};
use std::collections::BTreeSet;

/// The distinct names, in byte order. One search for each.
#[tactic(auto, unfolding(alto_maps::specs::Places::set_of))]
pub(crate) fn set_of(alloc: Global, names: Vec<Name>) -> Result<Vec<Name>, AllocError>
    ensures { IfOk result (λ set. set.items ≡ set_of names.items) }
{
    let mut set = BTreeSet::new(alloc);
    for name in names {
        set.insert(name)?;
    }
    set.into_iter().collect(alloc)
}

/// The names as a list.
pub(crate) fn texts(alloc: Global, names: &[Name]) -> Result<Tree, AllocError>
    ensures { IfOk result (λ tree. data_of tree ≡ texts names.now) }
{
    let mut trees = Vec::with_capacity(alloc, names.len())?;
    for name in names {
        trees.push(Tree::text(alloc, name.as_str())?)?;
    }
    Ok(Tree::list(trees))
}

/// The list of one name.
pub(crate) fn only(alloc: Global, name: Name) -> Result<Vec<Name>, AllocError>
    ensures { IfOk result (λ names. names.items ≡ name ∷ []) }
{
    let mut names = Vec::new(alloc);
    names.push(name)?;
    Ok(names)
}
