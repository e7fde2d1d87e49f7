//! A property map's parts as JSON text, written without a tree.
ghost use Rattle.std.specs.Prelude.{◌≡◌, IfOk, OnOk};
ghost use Rattle.std.specs.List.Sorted.{IsStrictlySortedBy};
ghost use Rattle.alto_maps.specs.Shape.{group_object, section_object};
ghost use Rattle.alto_maps.specs.Writing.{AddsMember, AddsMembers, AddsValue};
ghost use Rattle.alto_rows.specs.Good.{AreGood};
ghost use Rattle.alto_rows.specs.Order.{name_cmp};
ghost use Rattle.doc_pieces.specs.Pieces.{member_text};
ghost use Rattle.prop_docs.specs.PropertyMap.{prop_face, prop_meta, value_data};
ghost use Rattle.prop_docs.specs.Properties as spec;
ghost use Rattle.prop_docs.specs.Writing.{groups_of, props_in_order};

use crate::entities::entities_of;
use crate::properties::{Property, properties_of};
use alto_names::NetName;
use alto_rows::{RowStore, Value};
use json::Writer;
use json_tree::Name;
use net_docs::write_dependent_tags;
use std::alloc::{AllocError, Global};

/// Writes the meta. Two searches.
pub(crate) fn write_meta<R: RowStore>(
    alloc: Global,
    rows: &R,
    net: &NetName,
    out: &mut Writer,
) -> Result<(), AllocError>
    ensures { OnOk result (AddsValue (prop_meta net.now (R.rows rows.now)) out.old out.new) }
{
    out.begin_object()?;
    write_dependent_tags(alloc, rows, net, out)?;
    out.end_object()
}

/// Writes the groups in the byte order of their texts: one walk over the rows of the network's properties for these
/// texts, and for each entity one search and one walk over the rows of its properties.
pub(crate) fn write_groups<R: RowStore>(
    alloc: Global,
    rows: &R,
    net: &NetName,
    out: &mut Writer,
) -> Result<(), AllocError>
    requires { AreGood (R.rows rows.now) }
    ensures { OnOk result (AddsValue (section_object (prop_face net.now (R.rows rows.now))) out.old out.new) }
{
    out.begin_object()?;
    write_each_group(alloc, rows, net, out)?;
    out.end_object()
}

/// Writes the groups as members.
fn write_each_group<R: RowStore>(
    alloc: Global,
    rows: &R,
    net: &NetName,
    out: &mut Writer,
) -> Result<(), AllocError>
    requires { AreGood (R.rows rows.now) }
    ensures { OnOk result (AddsMembers (groups_of (R.rows rows.now) net.now) out.old out.new) }
{
    for text in entities_of(alloc, rows, net)? {
        write_group(alloc, rows, net, &text, out)?;
    }
    Ok(())
}

/// Writes the group of a text with its name. One search and one walk over the rows of its properties.
fn write_group<R: RowStore>(
    alloc: Global,
    rows: &R,
    net: &NetName,
    text: &Name,
    out: &mut Writer,
) -> Result<(), AllocError>
    requires { AreGood (R.rows rows.now) }
    ensures { OnOk result (AddsMember text.now
        (group_object (prop_face net.now (R.rows rows.now)) text.now) out.old out.new) }
{
    let properties = properties_of(alloc, rows, net, text)?;
    out.key(text.as_str())?;
    write_properties(&properties, out)
}

/// The group of a text with its name, as text. One search and one walk over the rows of its properties.
pub(crate) fn group_text<R: RowStore>(
    alloc: Global,
    rows: &R,
    net: &NetName,
    name: &Name,
) -> Result<Vec<u8>, AllocError>
    requires { AreGood (R.rows rows.now) }
    ensures { IfOk result (λ text. text.items
        ≡ member_text name.now (group_object (prop_face net.now (R.rows rows.now)) name.now)) }
{
    let mut out = Writer::new(Vec::new(alloc));
    write_group(alloc, rows, net, name, &mut out)?;
    Ok(out.into_inner())
}

/// Writes the object of properties whose names rise.
fn write_properties(properties: &[Property<'_>], out: &mut Writer) -> Result<(), AllocError>
    requires { IsStrictlySortedBy name_cmp (spec.names_of properties.now) }
    ensures { OnOk result (AddsValue (spec.props_object properties.now) out.old out.new) }
{
    out.begin_object()?;
    write_each_property(properties, out)?;
    out.end_object()
}

/// Writes properties as members, in their order.
fn write_each_property(properties: &[Property<'_>], out: &mut Writer) -> Result<(), AllocError>
    ensures { OnOk result (AddsMembers (props_in_order properties.now) out.old out.new) }
{
    for property in properties {
        write_property(property, out)?;
    }
    Ok(())
}

/// Writes a property.
fn write_property(property: &Property<'_>, out: &mut Writer) -> Result<(), AllocError>
    ensures { OnOk result (AddsMember property.now.0 (value_data property.now.1) out.old out.new) }
{
    out.key(property.name.as_str())?;
    write_value(property.value, out)
}

/// Writes a value.
fn write_value(value: &Value, out: &mut Writer) -> Result<(), AllocError>
    ensures { OnOk result (AddsValue (value_data value.now) out.old out.new) }
{
    match value {
        Value::Text(text) => out.string(text.as_str()),
        Value::Num(number) => out.u64(*number),
        _ => out.null(),
    }
}
