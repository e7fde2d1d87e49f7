ghost use Rattle.std.specs.Prelude.{◌≡◌, IfOk, OnOk};
ghost use Rattle.serde_json.specs.Data.{no_members, member};
ghost use Rattle.json_tree.specs.Order.{AreInOrder};
ghost use Rattle.json_tree.specs.Tree.{data_of, entries_data};
ghost use Rattle.json_patch.specs.Merge.{members_in, without, value_or_null, is_null, patched, members_patched};
ghost use Rattle.json_patch.specs.Merge.{merge_patched};

use json_tree::{Name, Tree};
use std::alloc::{AllocError, Global};
use std::collections::BTreeMap;

/// The target changed by the patch (RFC 7396, section 2). What the patch doesn't name is moved, not built again: the
/// time is by the size of the patch, with a search among the members of the target for each member of the patch.
#[tactic(auto, unfolding(crate::specs::Merge::merge_patched))]
pub fn merge(alloc: Global, target: Tree, patch: &Tree) -> Result<Tree, AllocError>
    ensures { IfOk result (λ tree. data_of tree
        ≡ merge_patched (data_of target) (data_of patch.now)) }
{
    patched(alloc, patch, target)
}

#[cycle(patched)]
#[tactic(auto, unfolding(json_tree::specs::Tree::data_of))]
fn patched(alloc: Global, patch: &Tree, target: Tree) -> Result<Tree, AllocError>
    ensures { IfOk result (λ tree. data_of tree ≡ patched (data_of patch.now) (data_of target)) }
{
    match patch {
        Tree::Object(changes) => {
            let mut members = members_in(alloc, target);
            patch_members(alloc, changes, &mut members)?;
            Ok(Tree::Object(members))
        }
        _ => patch.clone(),
    }
}

#[cycle(patched)]
fn patch_members(
    alloc: Global,
    changes: &BTreeMap<Name, Tree>,
    members: &mut BTreeMap<Name, Tree>,
) -> Result<(), AllocError>
    requires { AreInOrder (entries_data members.old.entries) }
    ensures { OnOk result (entries_data members.new.entries
        ≡ members_patched (entries_data changes.now.entries) (entries_data members.old.entries)) }
{
    for (name, change) in changes.iter() {
        patch_member(alloc, name, change, members)?;
    }
    Ok(())
}

#[cycle(patched)]
fn patch_member(
    alloc: Global,
    name: &Name,
    change: &Tree,
    members: &mut BTreeMap<Name, Tree>,
) -> Result<(), AllocError>
    requires { AreInOrder (entries_data members.old.entries) }
    ensures members { OnOk result (entries_data members.new.entries
        ≡ members_patched (member name.now (data_of change.now) no_members)
        (entries_data members.old.entries)) }
    ensures ordered { OnOk result (AreInOrder (entries_data members.new.entries)) }
{
    if is_null(change) {
        drop(members.remove(name));
        return Ok(());
    }
    let (name, old) = take(name, members)?;
    drop(members.insert(name, patched(alloc, change, old)?)?);
    Ok(())
}

/// Takes the member of this name out, null where there is none.
fn take(name: &Name, members: &mut BTreeMap<Name, Tree>) -> Result<(Name, Tree), AllocError>
    requires { AreInOrder (entries_data members.old.entries) }
    ensures name { IfOk result (λ taken. taken.0 ≡ name.now) }
    ensures value { IfOk result (λ taken. data_of taken.1
        ≡ value_or_null name.now (entries_data members.old.entries)) }
    ensures others { entries_data members.new.entries
        ≡ without name.now (entries_data members.old.entries) }
{
    match members.remove_entry(name) {
        Some(taken) => Ok(taken),
        None => Ok((name.clone()?, Tree::Null)),
    }
}

#[tactic(auto, unfolding(json_tree::specs::Tree::data_of))]
fn is_null(tree: &Tree) -> bool
    ensures { result ≡ is_null (data_of tree.now) }
{
    matches!(tree, Tree::Null)
}

#[tactic(auto, unfolding(json_tree::specs::Tree::data_of))]
fn members_in(alloc: Global, tree: Tree) -> BTreeMap<Name, Tree>
    ensures members { entries_data result.entries ≡ members_in (data_of tree) }
    ensures ordered { AreInOrder (entries_data result.entries) }
{
    match tree {
        Tree::Object(members) => {
            // Its clause tells that the names stand in order.
            let _ = members.len();
            members
        }
        _other => BTreeMap::new(alloc),
    }
}
