ghost use Rattle.std.specs.Prelude.{◌≡◌, IfOk};
ghost use Rattle.json_tree.specs.Tree.{data_of, items_data, entries_data};

use crate::name::Name;
use crate::tree::Tree;
use std::alloc::AllocError;
use std::collections::BTreeMap;
use std::default::Emptied;

// A derived `clone` says nothing of a type that holds itself.
impl Clone for Tree {
    ghost is_clone = { λ tree copy. data_of copy ≡ data_of tree };

    fn clone(&self) -> Result<Tree, AllocError> {
        copy(self)
    }
}

#[cycle(copy)]
#[tactic(auto, unfolding(crate::specs::Tree::data_of))]
fn copy(tree: &Tree) -> Result<Tree, AllocError>
    ensures { IfOk result (λ copy. data_of copy ≡ data_of tree.now) }
{
    match tree {
        Tree::Null => Ok(Tree::Null),
        Tree::Bool(truth) => Ok(Tree::Bool(*truth)),
        Tree::Num(number) => Ok(Tree::Num(*number)),
        Tree::Text(text) => Ok(Tree::Text(text.clone()?)),
        Tree::Short(text) => Ok(Tree::Short(*text)),
        Tree::List(trees) => Ok(Tree::List(copy_items(trees)?)),
        Tree::Object(members) => Ok(Tree::Object(copy_members(members)?)),
    }
}

#[cycle(copy)]
fn copy_items(trees: &Vec<Tree>) -> Result<Vec<Tree>, AllocError>
    ensures { IfOk result (λ copies. items_data copies.items ≡ items_data trees.now.items) }
{
    let mut copies = Vec::with_capacity(*trees.allocator(), trees.len())?;
    for tree in trees {
        copies.push(copy(tree)?)?;
    }
    Ok(copies)
}

#[cycle(copy)]
fn copy_members(members: &BTreeMap<Name, Tree>) -> Result<BTreeMap<Name, Tree>, AllocError>
    ensures { IfOk result (λ copies. entries_data copies.entries
        ≡ entries_data members.now.entries) }
{
    let mut copies = BTreeMap::emptied(members)?;
    for (name, tree) in members.iter() {
        let name = name.clone()?;
        drop(copies.insert(name, copy(tree)?)?);
    }
    Ok(copies)
}
