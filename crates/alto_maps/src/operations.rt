ghost use Rattle.std.specs.Prelude.{◌≡◌, ◌++◌, ◌∷◌, [], true, IfOk, OnOk, codes, map, option_map};
ghost use Rattle.std.specs.List.{cons_option, flat_map};
ghost use Rattle.json_tree.specs.Tree.{data_of};
ghost use Rattle.json_patch.specs.Operations.{operation_of, operations_of};
ghost use Rattle.alto_maps.specs.Shape.{stands, member_in};
ghost use Rattle.alto_maps.specs.OperationForm as spec;

use crate::place::Place;
use crate::source::MapSource;
use crate::touched::{Touched, touched_groups, touches_meta};
use json_patch::{Op, Path};
use json_tree::Name;
use std::alloc::{AllocError, Global};

/// What leads to a map from one that differs at these places, as operations (RFC 6902).
///
/// Costs one pass over the places, and one over the groups that they touch: it asks once whether each stood and stands,
/// takes the object of one that is new, and of one that stood and stands takes the later value of each touched member
/// once, and the earlier value of those that have none later.
pub fn json_edge<M: MapSource>(
    alloc: Global,
    before: &M,
    after: &M,
    places: &[Place],
) -> Result<Vec<Op>, AllocError>
    ensures { IfOk result (λ ops. operations_of ops.items
        ≡ spec.operation_form M.shape (M.face before.now) (M.face after.now) places.now) }
{
    let mut ops = Vec::new(alloc);
    put_version(alloc, after, places, &mut ops)?;
    let groups = touched_groups(alloc, places)?;
    for touched in &groups {
        put_group(alloc, before, after, touched, &mut ops)?;
    }
    Ok(ops)
}

/// One operation more.
fn put(ops: &mut Vec<Op>, op: Op) -> Result<(), AllocError>
    ensures { OnOk result (operations_of ops.new.items
        ≡ operations_of ops.old.items ++ operation_of op ∷ []) }
{
    ops.push(op)?;
    Ok(())
}

/// The operation on the version, where it is touched.
#[tactic(auto, unfolding(json_patch::specs::Operations::operation_of))]
fn put_version<M: MapSource>(
    alloc: Global,
    after: &M,
    places: &[Place],
    ops: &mut Vec<Op>,
) -> Result<(), AllocError>
    ensures { OnOk result (operations_of ops.new.items
        ≡ operations_of ops.old.items ++ spec.on_meta M.shape (M.face after.now) places.now) }
{
    if !touches_meta(places) {
        return Ok(());
    }
    let path = version_path(alloc, after)?;
    let value = after.version(alloc)?;
    put(ops, Op::Replace { path, value })
}

/// Where the version stands in the document.
fn version_path<M: MapSource>(alloc: Global, after: &M) -> Result<Path, AllocError>
    ensures { IfOk result (λ path. path ≡ codes "meta" ∷ M.shape.path) }
{
    let mut names = after.path(alloc)?;
    names.insert(0, Name::from_str(alloc, "meta")?)?;
    Ok(Path::new(names))
}

/// The operations on a touched group.
#[tactic(auto, unfolding(json_patch::specs::Operations::operation_of))]
fn put_group<M: MapSource>(
    alloc: Global,
    before: &M,
    after: &M,
    touched: &Touched,
    ops: &mut Vec<Op>,
) -> Result<(), AllocError>
    ensures { OnOk result (operations_of ops.new.items
        ≡ operations_of ops.old.items ++ map (spec.under M.shape.section)
        (spec.on_touched (M.face before.now) (M.face after.now) touched.now.0 touched.now.1)) }
{
    let group = &touched.group;
    let stood = before.stands(alloc, group)?;
    let stands = after.stands(alloc, group)?;
    match (stood, stands) {
        (true, true) => put_members(alloc, before, after, touched, ops),
        (true, false) => {
            let path = group_path(alloc, after, group)?;
            put(ops, Op::Remove { path })
        }
        (false, true) => {
            let path = group_path(alloc, after, group)?;
            let value = after.group(alloc, group)?;
            put(ops, Op::Add { path, value })
        }
        (false, false) => Ok(()),
    }
}

/// Where a group stands in the document.
fn group_path<M: MapSource>(alloc: Global, map: &M, group: &Name) -> Result<Path, AllocError>
    ensures { IfOk result (λ path. path ≡ M.shape.section ∷ group.now ∷ []) }
{
    let section = Name::from_str(alloc, map.section())?;
    Ok(Path::new(vec![in alloc; section, group.clone()?]?))
}

/// The operations on the touched members of a group that stood and stands.
fn put_members<M: MapSource>(
    alloc: Global,
    before: &M,
    after: &M,
    touched: &Touched,
    ops: &mut Vec<Op>,
) -> Result<(), AllocError>
    requires stood { stands (M.face before.now) touched.now.0 ≡ true }
    requires stands { stands (M.face after.now) touched.now.0 ≡ true }
    ensures { OnOk result (operations_of ops.new.items
        ≡ operations_of ops.old.items ++ map (spec.under M.shape.section) (map (spec.under touched.now.0)
        (spec.on_members (M.face before.now) (M.face after.now) touched.now.0 touched.now.1))) }
{
    for member in &touched.members {
        put_member(alloc, before, after, &touched.group, member, ops)?;
    }
    Ok(())
}

/// The operation on a member of a group that stood and stands, if there is one.
#[tactic(auto, unfolding(json_patch::specs::Operations::operation_of))]
fn put_member<M: MapSource>(
    alloc: Global,
    before: &M,
    after: &M,
    group: &Name,
    member: &Name,
    ops: &mut Vec<Op>,
) -> Result<(), AllocError>
    requires stood { stands (M.face before.now) group.now ≡ true }
    requires stands { stands (M.face after.now) group.now ≡ true }
    ensures { OnOk result (operations_of ops.new.items
        ≡ operations_of ops.old.items ++ map (spec.under M.shape.section) (map (spec.under group.now)
        (spec.on_member member.now (member_in (M.face before.now) group.now member.now)
        (member_in (M.face after.now) group.now member.now)))) }
{
    if let Some(value) = after.value(alloc, group, member)? {
        let path = member_path(alloc, after, group, member)?;
        return put(ops, Op::Add { path, value });
    }
    if before.value(alloc, group, member)?.is_some() {
        let path = member_path(alloc, after, group, member)?;
        return put(ops, Op::Remove { path });
    }
    Ok(())
}

/// Where a member of a group stands in the document.
fn member_path<M: MapSource>(
    alloc: Global,
    map: &M,
    group: &Name,
    member: &Name,
) -> Result<Path, AllocError>
    ensures { IfOk result (λ path. path ≡ M.shape.section ∷ group.now ∷ member.now ∷ []) }
{
    let section = Name::from_str(alloc, map.section())?;
    Ok(Path::new(vec![in alloc; section, group.clone()?, member.clone()?]?))
}
