ghost use Rattle.std.specs.Prelude.{◌≡◌, ◌++◌, ◌∷◌, [], true, IfOk, OnOk, map, option_map, unwrap_or};
ghost use Rattle.serde_json.specs.Data.{null, object};
ghost use Rattle.json_tree.specs.Document.{object_of};
ghost use Rattle.json_tree.specs.Members.{members_data};
ghost use Rattle.json_tree.specs.Tree.{data_of};
ghost use Rattle.alto_maps.specs.Shape.{stands, member_in};
ghost use Rattle.alto_maps.specs.MergeForm as spec;

use crate::place::Place;
use crate::source::MapSource;
use crate::touched::{Touched, touched_groups, touches_meta};
use json_tree::{Members, Name, Tree};
use std::alloc::{AllocError, Global};

/// What leads to a map from one that differs at these places, as a merge patch (RFC 7396).
///
/// Costs one pass over the places, and one over the groups that they touch: it asks once whether each stands, and of
/// one that stands takes the value of each touched member once.
pub fn merge_edge<M: MapSource>(
    alloc: Global,
    after: &M,
    places: &[Place],
) -> Result<Tree, AllocError>
    ensures { IfOk result (λ tree. data_of tree
        ≡ spec.merge_form M.shape (M.face after.now) places.now) }
{
    let mut edge = Members::new(alloc);
    let meta = meta_change(alloc, after, places)?;
    put_part(alloc, &mut edge, "meta", meta)?;
    let groups = touched_groups(alloc, places)?;
    let section = section_change(alloc, after, &groups)?;
    put_part(alloc, &mut edge, after.section(), section)?;
    Ok(edge.into_tree())
}

/// One member more, where there is a value.
fn put_part(
    alloc: Global,
    edge: &mut Members,
    name: &str,
    value: Option<Tree>,
) -> Result<(), AllocError>
    ensures { OnOk result (members_data edge.new
        ≡ spec.with_members (members_data edge.old) (spec.part name.now (option_map data_of value))) }
{
    if let Some(value) = value {
        edge.put(alloc, name, value)?;
    }
    Ok(())
}

/// What the meta comes to, where it is touched.
fn meta_change<M: MapSource>(
    alloc: Global,
    after: &M,
    places: &[Place],
) -> Result<Option<Tree>, AllocError>
    ensures { IfOk result (λ change. option_map data_of change
        ≡ spec.meta_change M.shape (M.face after.now) places.now) }
{
    if !touches_meta(places) {
        return Ok(None);
    }
    let path = after.path(alloc)?;
    let version = after.version(alloc)?;
    Ok(Some(objects_along(alloc, &path, version)?))
}

/// Objects in one another along a path, with this value at its end.
fn objects_along(alloc: Global, path: &[Name], value: Tree) -> Result<Tree, AllocError>
    ensures { IfOk result (λ tree. data_of tree ≡ spec.nested path.now (data_of value)) }
{
    match path.split_first() {
        Some((name, rest)) => {
            let mut members = Members::new(alloc);
            members.put(alloc, name.as_str(), objects_along(alloc, rest, value)?)?;
            Ok(members.into_tree())
        }
        None => Ok(value),
    }
}

/// What the section comes to, where a group is touched.
fn section_change<M: MapSource>(
    alloc: Global,
    after: &M,
    groups: &[Touched],
) -> Result<Option<Tree>, AllocError>
    ensures { IfOk result (λ change. option_map data_of change
        ≡ spec.section_change (map (λ t. (t.0, spec.change_of (M.face after.now) t.0 t.1)) groups.now)) }
{
    if groups.is_empty() {
        return Ok(None);
    }
    let mut changes = Members::new(alloc);
    for touched in groups {
        let change = group_change(alloc, after, touched)?;
        changes.put(alloc, touched.group.as_str(), change)?;
    }
    Ok(Some(changes.into_tree()))
}

/// What a touched group comes to.
fn group_change<M: MapSource>(
    alloc: Global,
    after: &M,
    touched: &Touched,
) -> Result<Tree, AllocError>
    ensures { IfOk result (λ tree. data_of tree
        ≡ spec.change_of (M.face after.now) touched.now.0 touched.now.1) }
{
    if after.stands(alloc, &touched.group)? {
        members_change(alloc, after, &touched.group, &touched.members)
    } else {
        Ok(Tree::null())
    }
}

/// What the touched members of a group that stands come to.
fn members_change<M: MapSource>(
    alloc: Global,
    after: &M,
    group: &Name,
    members: &[Name],
) -> Result<Tree, AllocError>
    requires { stands (M.face after.now) group.now ≡ true }
    ensures { IfOk result (λ tree. data_of tree
        ≡ object_of (map (λ m. (m, unwrap_or (member_in (M.face after.now) group.now m) null)) members.now)) }
{
    let mut changes = Members::new(alloc);
    for member in members {
        let value = after.value(alloc, group, member)?;
        changes.put(alloc, member.as_str(), value_or_null(value))?;
    }
    Ok(changes.into_tree())
}

/// The value, and null where there is none.
fn value_or_null(value: Option<Tree>) -> Tree
    ensures { data_of result ≡ unwrap_or (option_map data_of value) null }
{
    match value {
        Some(value) => value,
        None => Tree::null(),
    }
}
