//! The properties of one entity.
ghost use Rattle.std.specs.Prelude.{◌≡◌, IfOk, OnOk, map};
ghost use Rattle.std.specs.List.{filter_map};
ghost use Rattle.std.specs.List.Sorted.{IsStrictlySortedBy};
ghost use Rattle.serde_json.specs.Data.{Data};
ghost use Rattle.json_tree.specs.Tree.{data_of};
ghost use Rattle.alto_maps.specs.Shape.{group_object};
ghost use Rattle.alto_rows.specs.declared.span.Span.TheVariants as span;
ghost use Rattle.alto_rows.specs.Good.{AreGood};
ghost use Rattle.alto_rows.specs.Order.{name_cmp};
ghost use Rattle.prop_docs.specs.PropertyMap.{prop_face, value_data};
ghost use Rattle.prop_docs.specs.Properties as spec;

use crate::entities::entity_named;
use alto_names::{NetName, PropName};
use alto_rows::{Entity, Key, RowStore, Span, Value, Within, rows_in};
use json_tree::{Members, Name, Tree};
use std::alloc::{AllocError, Global};
use std::marker::Model;

/// A property of an entity. A contract sees its name and its value.
#[derive(Drop)]
pub(crate) struct Property<'a> {
    pub(crate) name: &'a PropName,
    pub(crate) value: &'a Value,
}

impl<'a> Model for Property<'a> {
    ghost use Rattle.prop_docs.specs.Properties.{NamedValue};

    ghost Value = { NamedValue };

    ghost view = { λ property. (property.name.now, property.value.now) };
}

/// The properties of the entity of this text, in the order of their names: none where no entity has it. One search and
/// one walk over their rows.
pub(crate) fn properties_of<'a, R: RowStore>(
    alloc: Global,
    rows: &'a R,
    net: &NetName,
    text: &Name,
) -> Result<Vec<Property<'a>>, AllocError>
    requires { AreGood (R.rows rows.now) }
    ensures all { IfOk result (λ properties. properties.items
        ≡ spec.props_shown (R.rows rows.now) net.now text.now) }
    ensures rise { IfOk result (λ properties. IsStrictlySortedBy name_cmp (spec.names_of properties.items)) }
{
    match entity_named(alloc, net, text)? {
        Some(entity) => properties_owned(alloc, rows, net, entity),
        None => Ok(Vec::new(alloc)),
    }
}

/// The properties of an entity.
fn properties_owned<'a, R: RowStore>(
    alloc: Global,
    rows: &'a R,
    net: &NetName,
    entity: Entity,
) -> Result<Vec<Property<'a>>, AllocError>
    ensures { IfOk result (λ properties. properties.items ≡ spec.props_of (R.rows rows.now) net.now entity) }
{
    let mut walk = rows_in(rows, props_span(net, entity)?);
    let properties = properties_in(alloc, &mut walk);
    drop(walk);
    properties
}

/// The span of the properties of an entity. What is let go by a call, in one place, is cheaper to prove than what is
/// dropped at each exit.
pub(crate) fn props_span(net: &NetName, entity: Entity) -> Result<Span, AllocError>
    ensures { IfOk result (λ props. props ≡ span.PropsOf net.now entity) }
{
    match net.clone() {
        Ok(net) => Ok(Span::PropsOf(net, entity)),
        Err(fault) => {
            drop(entity);
            Err(fault)
        }
    }
}

/// The properties that the rows of a walk give.
fn properties_in<'a, R: RowStore>(
    alloc: Global,
    walk: &mut Within<'a, R>,
) -> Result<Vec<Property<'a>>, AllocError>
    ensures { IfOk result (λ properties. properties.items ≡ filter_map spec.prop_in walk.old) }
{
    let mut properties = Vec::new(alloc);
    while let Some(row) = walk.next() {
        if let Some(property) = property_in(row) {
            properties.push(property)?;
        }
    }
    Ok(properties)
}

/// The property that a row gives its entity.
fn property_in(row: &(Key, Value)) -> Option<Property<'_>>
    ensures { result ≡ spec.prop_in row.now }
{
    match &row.0 {
        Key::Prop(_, _, name) => Some(Property {
            name,
            value: &row.1,
        }),
        _ => None,
    }
}

/// The group of a text: an object without members where no entity has it.
pub(crate) fn group<R: RowStore>(
    alloc: Global,
    rows: &R,
    net: &NetName,
    text: &Name,
) -> Result<Tree, AllocError>
    requires { AreGood (R.rows rows.now) }
    ensures { IfOk result (λ tree. data_of tree ≡ group_object (prop_face net.now (R.rows rows.now)) text.now) }
{
    let properties = properties_of(alloc, rows, net, text)?;
    object_of(alloc, &properties)
}

/// The object of properties.
fn object_of(alloc: Global, properties: &[Property<'_>]) -> Result<Tree, AllocError>
    ensures { IfOk result (λ tree. data_of tree ≡ spec.props_object properties.now) }
{
    let mut members = Members::new(alloc);
    for property in properties {
        members.put(
            alloc,
            property.name.as_str(),
            value_tree(alloc, property.value)?,
        )?;
    }
    Ok(members.into_tree())
}

/// The value of a property as JSON. A copy of a text; no memory for a number.
pub fn value_tree(alloc: Global, value: &Value) -> Result<Tree, AllocError>
    ensures { IfOk result (λ tree. data_of tree ≡ value_data value.now) }
{
    match value {
        Value::Text(text) => Tree::text(alloc, text.as_str()),
        Value::Num(number) => Ok(Tree::number(*number)),
        _ => Ok(Tree::null()),
    }
}
