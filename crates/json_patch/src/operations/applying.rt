ghost use Rattle.std.specs.Prelude.{◌≡◌, ◌≢◌, Ok, Err, Some, IfOk, IfErr, IfSome, OnOk, MatchOption, option_map};
ghost use Rattle.std.specs.Prelude.{option_and_then};
ghost use Rattle.serde_json.specs.Find.{as_object};
ghost use Rattle.json_tree.specs.Document.{with_member};
ghost use Rattle.json_tree.specs.Order.{AreInOrder};
ghost use Rattle.json_tree.specs.Tree.{data_of, entries_data};
ghost use Rattle.json_patch.specs.Operations.{acted, changed_at, changed_in, refusal_of, fault_at, at_place, operated};
ghost use Rattle.json_patch.specs.Operations.{operations_applied, operation_of, operations_of};

use crate::operations::op::Op;
use crate::operations::patch_fault::PatchFault;
use json_tree::{Name, Tree};
use std::alloc::AllocError;
use std::collections::BTreeMap;

/// The target changed by the operations, one after another (RFC 6902, section 5). What no operation names is moved,
/// not built again: each operation takes a search among the members at each name of its path, and a copy of its value.
///
/// # Errors
///
/// Of the first operation that can't be done, with its number from 0: `NoParent` for an add where some parent on the
/// path is no object, and `NoTarget` for a removal or a replacement of what isn't there, or of the whole document's
/// removal. The target is given up.
pub fn apply(target: Tree, ops: &[Op]) -> Result<Tree, PatchFault>
    ensures ok { IfOk result (λ tree. operations_applied (operations_of ops.now) (data_of target)
        ≡ Ok (data_of tree)) }
    ensures err { IfErr result (λ fault. fault ≢ PatchFault.Memory
        → operations_applied (operations_of ops.now) (data_of target) ≡ Err fault) }
{
    let mut tree = target;
    for (k, op) in ops.iter().enumerate() {
        tree = operated(k, op, tree)?;
    }
    Ok(tree)
}

fn operated(k: usize, op: &Op, target: Tree) -> Result<Tree, PatchFault>
    ensures ok { IfOk result (λ tree. operated (operation_of op.now) (data_of target)
        ≡ Ok (data_of tree)) }
    ensures err { IfErr result (λ fault. fault ≢ PatchFault.Memory
        → at_place k (operated (operation_of op.now) (data_of target)) ≡ Err fault) }
{
    match changed_at(k, op, op.path().names(), Some(target))? {
        Some(tree) => Ok(tree),
        None => Err(PatchFault::NoTarget(k)),
    }
}

#[cycle(changed_at)]
fn changed_at(
    k: usize,
    op: &Op,
    path: &[Name],
    old: Option<Tree>,
) -> Result<Option<Tree>, PatchFault>
    ensures ok { IfOk result (λ new.
        changed_at path.now (operation_of op.now).action (option_map data_of old)
        ≡ Ok (option_map data_of new)) }
    ensures err { IfErr result (λ fault. fault ≢ PatchFault.Memory → at_place k
        (changed_at path.now (operation_of op.now).action (option_map data_of old))
        ≡ Err fault) }
{
    match path.split_first() {
        None => acted(k, op, old),
        Some((name, rest)) => match members_in(old) {
            Some(members) => changed_in(k, op, name, rest, members),
            None => Err(refusal(k, op)),
        },
    }
}

#[cycle(changed_at)]
fn changed_in(
    k: usize,
    op: &Op,
    name: &Name,
    path: &[Name],
    mut members: BTreeMap<Name, Tree>,
) -> Result<Option<Tree>, PatchFault>
    requires { AreInOrder (entries_data members.entries) }
    ensures ok { IfOk result (λ new. changed_in name.now
        (changed_at path.now (operation_of op.now).action)
        (refusal_of (operation_of op.now).action)
        (Some (entries_data members.entries))
        ≡ Ok (option_map data_of new)) }
    ensures err { IfErr result (λ fault. fault ≢ PatchFault.Memory → at_place k
        (changed_in name.now
        (changed_at path.now (operation_of op.now).action)
        (refusal_of (operation_of op.now).action)
        (Some (entries_data members.entries)))
        ≡ Err fault) }
{
    let old = members.remove(name);
    let new = changed_at(k, op, path, old)?;
    put(name, new, &mut members)?;
    Ok(Some(Tree::Object(members)))
}

/// Puts the value at the name, if there is one, among members of other names.
#[tactic(auto, using(json_tree::proofs::Objects::entries_insert))]
fn put(
    name: &Name,
    value: Option<Tree>,
    members: &mut BTreeMap<Name, Tree>,
) -> Result<(), AllocError>
    ensures { OnOk result (MatchOption value
        (entries_data members.new.entries ≡ entries_data members.old.entries)
        (λ tree. entries_data members.new.entries
        ≡ with_member name.now (data_of tree) (entries_data members.old.entries))) }
{
    if let Some(tree) = value {
        drop(members.insert(name.clone()?, tree)?);
    }
    Ok(())
}

/// What the action makes of what is at its path.
#[tactic(auto, unfolding(crate::specs::Operations::operation_of))]
fn acted(k: usize, op: &Op, old: Option<Tree>) -> Result<Option<Tree>, PatchFault>
    ensures ok { IfOk result (λ new. acted (operation_of op.now).action (option_map data_of old)
        ≡ Ok (option_map data_of new)) }
    ensures err { IfErr result (λ fault. fault ≢ PatchFault.Memory
        → at_place k (acted (operation_of op.now).action (option_map data_of old)) ≡ Err fault) }
{
    match op {
        Op::Add { value, .. } => Ok(Some(value.clone()?)),
        Op::Remove { .. } => match old {
            Some(_) => Ok(None),
            None => Err(PatchFault::NoTarget(k)),
        },
        Op::Replace { value, .. } => match old {
            Some(_) => Ok(Some(value.clone()?)),
            None => Err(PatchFault::NoTarget(k)),
        },
    }
}

#[tactic(auto, unfolding(crate::specs::Operations::operation_of))]
fn refusal(k: usize, op: &Op) -> PatchFault
    ensures { result ≡ fault_at k (refusal_of (operation_of op.now).action) }
{
    match op {
        Op::Add { .. } => PatchFault::NoParent(k),
        Op::Remove { .. } | Op::Replace { .. } => PatchFault::NoTarget(k),
    }
}

/// The members of an object, if there is one.
#[tactic(auto, unfolding(json_tree::specs::Tree::data_of))]
fn members_in(tree: Option<Tree>) -> Option<BTreeMap<Name, Tree>>
    ensures members { option_map (λ members. entries_data members.entries) result
        ≡ option_and_then as_object (option_map data_of tree) }
    ensures ordered { IfSome result (λ members. AreInOrder (entries_data members.entries)) }
{
    match tree {
        Some(tree) => match tree {
            Tree::Object(members) => {
                // Its clause tells that the names stand in order.
                let _ = members.len();
                Some(members)
            }
            _other => None,
        },
        None => None,
    }
}
