ghost use Rattle.std.specs.Prelude.{◌≡◌, [], ◌∷◌, IfOk, codes, option_map};
ghost use Rattle.std.specs.List.{filter_map};
ghost use Rattle.json_tree.specs.Document.{object_of};
ghost use Rattle.json_tree.specs.Tree.{data_of};
ghost use Rattle.alto_rows.specs.Good.{AreGood};
ghost use Rattle.alto_rows.specs.Prefixes.{prefixes_in};
ghost use Rattle.prop_docs.specs.PropertyMap.{prop_meta};
ghost use Rattle.prop_filters.specs.Filter as spec;
ghost use Rattle.prop_filters.specs.Filter.{asked_entities, asked_names, filtered_properties, groups_object};
ghost use Rattle.prop_filters.specs.Filter.{group_of, member_of, object_if_any};

use crate::asked::{all_entities, all_names};
use crate::values::property_of;
use alto_names::NetName;
use alto_rows::{Entity, RowStore, print_entity};
use json_tree::{Members, Name, Tree};
use net_docs::dependent_tags;
use pid_prefix::RangeTable;
use prop_docs::PropAsk;
use std::alloc::{AllocError, Global};

/// The property map of a network cut to what is asked (RFC 9240, section 8.6): each asked entity that has an asked
/// property, with those that it has. The table is that of the network's prefixes.
///
/// For each asked entity and each asked name: of a PID one search of the rows, of a block at most 33 (IPv4) or 129
/// (IPv6), one for each length up to its own, until one is found; of the PID of an address one search of the table. An
/// empty list costs one walk over the rows of the network's properties.
#[tactic(auto, unfolding(crate::specs::Filter::filtered_properties))]
pub fn filter_prop<R: RowStore>(
    alloc: Global,
    rows: &R,
    net: &NetName,
    table: &RangeTable,
    ask: &PropAsk,
) -> Result<Tree, AllocError>
    requires good { AreGood (R.rows rows.now) }
    requires table { table.now ≡ prefixes_in (R.rows rows.now) net.now }
    ensures { IfOk result (λ tree. data_of tree ≡ filtered_properties (R.rows rows.now) net.now ask.now) }
{
    let meta = meta(alloc, rows, net)?;
    let groups = groups(alloc, rows, net, table, ask)?;
    document(alloc, meta, groups)
}

/// The document with these two members.
fn document(alloc: Global, meta: Tree, groups: Tree) -> Result<Tree, AllocError>
    ensures { IfOk result (λ tree. data_of tree
        ≡ object_of ((codes "meta", data_of meta) ∷ (codes "property-map", data_of groups) ∷ [])) }
{
    let mut document = Members::new(alloc);
    document.put(alloc, "meta", meta)?;
    document.put(alloc, "property-map", groups)?;
    Ok(document.into_tree())
}

/// The meta: the version tag of the network map.
fn meta<R: RowStore>(alloc: Global, rows: &R, net: &NetName) -> Result<Tree, AllocError>
    ensures { IfOk result (λ tree. data_of tree ≡ prop_meta net.now (R.rows rows.now)) }
{
    meta_of(alloc, dependent_tags(alloc, rows, net)?)
}

/// The meta with these version tags.
fn meta_of(alloc: Global, tags: Tree) -> Result<Tree, AllocError>
    ensures { IfOk result (λ tree. data_of tree ≡ object_of ((codes "dependent-vtags", data_of tags) ∷ [])) }
{
    let mut meta = Members::new(alloc);
    meta.put(alloc, "dependent-vtags", tags)?;
    Ok(meta.into_tree())
}

/// The groups that are asked for.
fn groups<R: RowStore>(
    alloc: Global,
    rows: &R,
    net: &NetName,
    table: &RangeTable,
    ask: &PropAsk,
) -> Result<Tree, AllocError>
    requires good { AreGood (R.rows rows.now) }
    requires table { table.now ≡ prefixes_in (R.rows rows.now) net.now }
    ensures { IfOk result (λ tree. data_of tree ≡ groups_object (R.rows rows.now) net.now ask.now) }
{
    if ask.properties.is_empty() {
        let names = all_names(alloc, rows, net)?;
        return groups_by_names(alloc, rows, net, table, &names, &ask.entities);
    }
    groups_by_names(alloc, rows, net, table, &ask.properties, &ask.entities)
}

/// The groups of the entities that are asked for, with the properties of these names.
fn groups_by_names<R: RowStore>(
    alloc: Global,
    rows: &R,
    net: &NetName,
    table: &RangeTable,
    names: &[Name],
    entities: &[Entity],
) -> Result<Tree, AllocError>
    requires good { AreGood (R.rows rows.now) }
    requires table { table.now ≡ prefixes_in (R.rows rows.now) net.now }
    ensures { IfOk result (λ tree. data_of tree ≡ object_of (filter_map
        (group_of (R.rows rows.now) net.now names.now)
        (asked_entities (R.rows rows.now) net.now entities.now))) }
{
    if entities.is_empty() {
        let all = all_entities(alloc, rows, net)?;
        return groups_among(alloc, rows, net, table, names, &all);
    }
    groups_among(alloc, rows, net, table, names, entities)
}

/// The groups of those of these entities that have properties of these names.
fn groups_among<R: RowStore>(
    alloc: Global,
    rows: &R,
    net: &NetName,
    table: &RangeTable,
    names: &[Name],
    entities: &[Entity],
) -> Result<Tree, AllocError>
    requires good { AreGood (R.rows rows.now) }
    requires table { table.now ≡ prefixes_in (R.rows rows.now) net.now }
    ensures { IfOk result (λ tree. data_of tree
        ≡ object_of (filter_map (group_of (R.rows rows.now) net.now names.now) entities.now)) }
{
    let mut groups = Members::new(alloc);
    for entity in entities {
        if let Some(group) = group(alloc, rows, net, table, names, entity)? {
            groups.put_name(print_entity(alloc, net, entity)?, group)?;
        }
    }
    Ok(groups.into_tree())
}

/// The object of the properties of these names that an entity has, if it has any.
fn group<R: RowStore>(
    alloc: Global,
    rows: &R,
    net: &NetName,
    table: &RangeTable,
    names: &[Name],
    entity: &Entity,
) -> Result<Option<Tree>, AllocError>
    requires good { AreGood (R.rows rows.now) }
    requires table { table.now ≡ prefixes_in (R.rows rows.now) net.now }
    ensures { IfOk result (λ group. option_map data_of group
        ≡ object_if_any (filter_map (member_of (R.rows rows.now) net.now entity.now) names.now)) }
{
    let mut group = Members::new(alloc);
    let mut any = false;
    for name in names {
        if let Some(value) = property_of(alloc, rows, net, table, entity, name)? {
            group.put(alloc, name.as_str(), value)?;
            any = true;
        }
    }
    if any {
        return Ok(Some(group.into_tree()));
    }
    Ok(None)
}
