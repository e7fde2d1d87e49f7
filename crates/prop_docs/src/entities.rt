//! Entities and their texts (RFC 9240, section 5.1.3).
ghost use Rattle.std.specs.Prelude.{◌≡◌, IfOk};
ghost use Rattle.std.specs.List.{filter_map};
ghost use Rattle.alto_maps.specs.Places.{set_of};
ghost use Rattle.alto_rows.specs.Good.{IsEntity};
ghost use Rattle.alto_rows.specs.declared.entity.Entity.{Entity as TheEntity};
ghost use Rattle.prop_docs.specs.Properties.{if_text_of, is_found};
ghost use Rattle.prop_docs.specs.PropertyMap as spec;

use alto_names::NetName;
use alto_rows::{Entity, Key, RowStore, Span, Value, Within, print_entity, read_entity, rows_in};
use json_tree::Name;
use std::alloc::{AllocError, Global};
use std::collections::BTreeSet;

/// The texts of the entities of a network that have properties, in byte order, which isn't that of their rows. One walk
/// over the rows of these properties, and one search among the texts for each.
pub(crate) fn entities_of<R: RowStore>(
    alloc: Global,
    rows: &R,
    net: &NetName,
) -> Result<BTreeSet<Name>, AllocError>
    ensures { IfOk result (λ texts. texts.keys ≡ spec.entities_of (R.rows rows.now) net.now) }
{
    // a walk that is let go by one call is cheaper to prove than one that a loop drops at each exit
    let mut walk = rows_in(rows, Span::Props(net.clone()?));
    let texts = entities_in(alloc, net, &mut walk);
    drop(walk);
    texts
}

/// The texts of the entities of a network to which the rows of a walk give properties.
#[tactic(auto, unfolding(alto_maps::specs::Places::set_of))]
fn entities_in<R: RowStore>(
    alloc: Global,
    net: &NetName,
    walk: &mut Within<R>,
) -> Result<BTreeSet<Name>, AllocError>
    ensures { IfOk result (λ texts. texts.keys ≡ set_of (filter_map (spec.entity_in net.now) walk.old)) }
{
    let mut texts = BTreeSet::new(alloc);
    while let Some(row) = walk.next() {
        if let Some(text) = entity_in(alloc, net, row)? {
            texts.insert(text)?;
        }
    }
    Ok(texts)
}

/// The same as a list: the names of the groups.
pub(crate) fn group_names<R: RowStore>(
    alloc: Global,
    rows: &R,
    net: &NetName,
) -> Result<Vec<Name>, AllocError>
    ensures { IfOk result (λ names. names.items ≡ spec.entities_of (R.rows rows.now) net.now) }
{
    entities_of(alloc, rows, net)?.into_iter().collect(alloc)
}

/// The text of the entity that a row gives a property.
fn entity_in(alloc: Global, net: &NetName, row: &(Key, Value)) -> Result<Option<Name>, AllocError>
    ensures { IfOk result (λ text. text ≡ spec.entity_in net.now row.now) }
{
    match &row.0 {
        Key::Prop(of, entity, _) if net == of => Ok(Some(print_entity(alloc, net, entity)?)),
        _ => Ok(None),
    }
}

/// The entity that has exactly this text, `None` where none has it: a text that writes an entity in another way names
/// no group.
pub(crate) fn entity_named(
    alloc: Global,
    net: &NetName,
    text: &Name,
) -> Result<Option<Entity>, AllocError>
    ensures { IfOk result (λ found. (entity : TheEntity) → IsEntity entity
        → spec.is_text_of net.now text.now entity ≡ is_found found entity) }
{
    match read_entity(alloc, net, text.as_str().as_bytes())? {
        Some(entity) => if_text_of(alloc, net, text, entity),
        None => Ok(None),
    }
}

/// The entity, if the text is what is written of it.
fn if_text_of(
    alloc: Global,
    net: &NetName,
    text: &Name,
    entity: Entity,
) -> Result<Option<Entity>, AllocError>
    ensures { IfOk result (λ found. found ≡ if_text_of net.now text.now entity) }
{
    let printed = print_entity(alloc, net, &entity)?;
    if *text == printed {
        Ok(Some(entity))
    } else {
        Ok(None)
    }
}
