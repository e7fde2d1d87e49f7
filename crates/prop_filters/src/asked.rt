//! What an ask without entities, or without names, asks for.
ghost use Rattle.std.specs.Prelude.{◌≡◌, ◌-◌, [], ◌∷◌, ◌++◌, IfOk, OnOk, List, length, option_copied, slice_get};
ghost use Rattle.std.specs.List.{filter_map};
ghost use Rattle.alto_rows.specs.declared.entity.Entity.{Entity as TheEntity};
ghost use Rattle.alto_maps.specs.Places.{set_of};
ghost use Rattle.prop_docs.specs.Properties.{is_found};
ghost use Rattle.prop_filters.specs.Filter.{asked_entities, asked_names, entity_given, name_given, pid_property};
ghost use Rattle.prop_filters.specs.Repeats.{GiveTheSame};

use alto_names::NetName;
use alto_rows::{Entity, Key, RowStore, Span, Value, Within, rows_in};
use json_tree::Name;
use std::alloc::{AllocError, Global};
use std::collections::BTreeSet;

/// The entities of a network that have a property of their own, each once. One walk over the rows of these properties.
pub(crate) fn all_entities<R: RowStore>(
    alloc: Global,
    rows: &R,
    net: &NetName,
) -> Result<Vec<Entity>, AllocError>
    ensures { IfOk result (λ entities. GiveTheSame entities.items (asked_entities (R.rows rows.now) net.now [])) }
{
    // a walk that is let go by one call is cheaper to prove than one that a loop drops at each exit
    let mut walk = rows_in(rows, Span::Props(net.clone()?));
    let entities = entities_in(alloc, net, &mut walk);
    drop(walk);
    entities
}

/// The entities of a network to which the rows of a walk give properties, each once.
fn entities_in<R: RowStore>(
    alloc: Global,
    net: &NetName,
    walk: &mut Within<R>,
) -> Result<Vec<Entity>, AllocError>
    ensures { IfOk result (λ entities. GiveTheSame entities.items (filter_map (entity_given net.now) walk.old)) }
{
    let mut entities = Vec::new(alloc);
    while let Some(row) = walk.next() {
        add_entity(&mut entities, net, row)?;
    }
    Ok(entities)
}

/// Adds the entity to which a row gives a property, unless it was added last.
fn add_entity(
    entities: &mut Vec<Entity>,
    net: &NetName,
    row: &(Key, Value),
) -> Result<(), AllocError>
    ensures { OnOk result ((more : List TheEntity) → GiveTheSame
        (entities.new.items ++ more) (entities.old.items ++ filter_map (entity_given net.now) (row.now ∷ []) ++ more)) }
{
    match &row.0 {
        Key::Prop(of, entity, _) if net == of => add(entities, entity),
        _ => Ok(()),
    }
}

/// Adds an entity, unless it was added last.
fn add(entities: &mut Vec<Entity>, entity: &Entity) -> Result<(), AllocError>
    ensures { OnOk result ((more : List TheEntity) → GiveTheSame
        (entities.new.items ++ more) (entities.old.items ++ entity.now ∷ more)) }
{
    if is_last(entities, entity) {
        return Ok(());
    }
    entities.push(entity.clone()?)?;
    Ok(())
}

/// Whether an entity is the last of these.
fn is_last(entities: &[Entity], entity: &Entity) -> bool
    ensures { result ≡ is_found (slice_get entities.now (length entities.now - 1)) entity.now }
{
    is_entity(entities.last(), entity)
}

/// Whether there is an entity, and it is this one.
#[tactic(auto, using(alto_rows::proofs::OrderLemmas::derived_entity_cmp))]
fn is_entity(found: Option<&Entity>, entity: &Entity) -> bool
    ensures { result ≡ is_found (option_copied found.entry) entity.now }
{
    match found {
        Some(one) => one.cmp(entity).is_eq(),
        None => false,
    }
}

/// The names of the properties of a network, in byte order, and that of the PID of an address. One walk over the rows
/// of these properties, and one search among the names for each.
pub(crate) fn all_names<R: RowStore>(
    alloc: Global,
    rows: &R,
    net: &NetName,
) -> Result<Vec<Name>, AllocError>
    ensures { IfOk result (λ names. names.items ≡ asked_names (R.rows rows.now) net.now []) }
{
    let mut names = Vec::new(alloc);
    for name in names_given(alloc, rows, net)? {
        names.push(name)?;
    }
    names.push(pid_property(alloc, net)?)?;
    Ok(names)
}

/// The names of the properties of a network.
fn names_given<R: RowStore>(
    alloc: Global,
    rows: &R,
    net: &NetName,
) -> Result<BTreeSet<Name>, AllocError>
    ensures { IfOk result (λ names. names.keys ≡ set_of (filter_map (name_given net.now) (R.rows rows.now))) }
{
    let mut walk = rows_in(rows, Span::Props(net.clone()?));
    let names = names_in(alloc, net, &mut walk);
    drop(walk);
    names
}

/// The names of the properties of a network that the rows of a walk give.
#[tactic(auto, unfolding(alto_maps::specs::Places::set_of))]
fn names_in<R: RowStore>(
    alloc: Global,
    net: &NetName,
    walk: &mut Within<R>,
) -> Result<BTreeSet<Name>, AllocError>
    ensures { IfOk result (λ names. names.keys ≡ set_of (filter_map (name_given net.now) walk.old)) }
{
    let mut names = BTreeSet::new(alloc);
    while let Some(row) = walk.next() {
        if let Some(name) = name_given(alloc, net, row)? {
            names.insert(name)?;
        }
    }
    Ok(names)
}

/// The name of the property that a row gives.
fn name_given(alloc: Global, net: &NetName, row: &(Key, Value)) -> Result<Option<Name>, AllocError>
    ensures { IfOk result (λ name. name ≡ name_given net.now row.now) }
{
    match &row.0 {
        Key::Prop(of, _, name) if net == of => Ok(Some(Name::from_str(alloc, name.as_str())?)),
        _ => Ok(None),
    }
}

/// The name of the property of an address that is its PID.
fn pid_property(alloc: Global, net: &NetName) -> Result<Name, AllocError>
    ensures { IfOk result (λ name. name ≡ pid_property net.now) }
{
    Ok(Name::new(format!(in alloc; "{net}.pid")?))
}
