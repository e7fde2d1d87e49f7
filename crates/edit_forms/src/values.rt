ghost use Rattle.std.specs.Prelude.{◌≡◌, ◌==◌, ◌≤◌, ◌<◌, ◌+◌, IfOk, IfSome, length, map, not};
ghost use Rattle.std.specs.List.{list_any, position_from};
ghost use Rattle.alto_names.specs.Name.{named};
ghost use Rattle.alto_rows.specs.Entities.{WritesEntity};
ghost use Rattle.alto_rows.specs.Good.{IsEntity};
ghost use Rattle.alto_edits.specs.Edits.{IsPropValue, is_control, max_reservable_bandwidth};
ghost use Rattle.edit_forms.specs.Answers.{IsAnswer, IsValue};
ghost use Rattle.edit_forms.specs.Columns.{WritesName, WritesPrefix, WritesKind, WritesValue, WritesBandwidth};
ghost use Rattle.edit_forms.specs.Table.{Ends};

use crate::amounts::amount_in;
use crate::columns::ColumnFault;
use crate::value_kind::ValueKind;
use alto_addr::{Prefix, read_prefix};
use alto_edits::{Edit, PropValue};
use alto_names::{Kind, Label, NameFault, NetName, PropKind, PropName};
use alto_rows::{Entity, read_entity};
use json_tree::Name;
use std::alloc::Global;
use std::str;

/// The name in the column of this number. Takes no memory where it is the name before: that is cloned.
pub(crate) fn name_like<K: Kind>(
    alloc: Global,
    column: u8,
    text: &[u8],
    before: Option<&Label<K>>,
) -> Result<Label<K>, ColumnFault>
    ensures answer { IsValue column (WritesName K.alphabet K.LONGEST text.now) result }
    ensures name { IfOk result (λ name. named K.alphabet K.LONGEST name ≡ Ok name) }
{
    match before {
        Some(name) if name.matches(text) => Ok(name.clone()?),
        _ => name_in(alloc, column, text),
    }
}

/// The name in the column of this number, read anew.
pub(crate) fn name_in<K: Kind>(
    alloc: Global,
    column: u8,
    text: &[u8],
) -> Result<Label<K>, ColumnFault>
    ensures answer { IsValue column (WritesName K.alphabet K.LONGEST text.now) result }
    ensures name { IfOk result (λ name. named K.alphabet K.LONGEST name ≡ Ok name) }
{
    match Label::read(alloc, text) {
        Ok(name) => Ok(name),
        Err(NameFault::Memory) => Err(ColumnFault::Memory),
        Err(_) => Err(ColumnFault::Bad(column)),
    }
}

/// The name in this column of the one property of an abstract network element.
pub(crate) fn bandwidth_in(alloc: Global, column: u8, text: &[u8]) -> Result<PropName, ColumnFault>
    ensures answer { IsValue column (WritesBandwidth text.now) result }
    ensures name { IfOk result (λ name. name ≡ max_reservable_bandwidth) }
{
    if text == b"max-reservable-bandwidth".as_slice() {
        name_in::<PropKind>(alloc, column, text)
    } else {
        Err(ColumnFault::Bad(column))
    }
}

/// The prefix in this column.
pub(crate) fn prefix_in(column: u8, text: &[u8]) -> Result<Prefix, ColumnFault>
    ensures answer { IsValue column (WritesPrefix text.now) result }
{
    match read_prefix(text) {
        Ok(prefix) => Ok(prefix),
        Err(_) => Err(ColumnFault::Bad(column)),
    }
}

/// The entity of a network in this column.
pub(crate) fn entity_in(
    alloc: Global,
    column: u8,
    net: &NetName,
    text: &[u8],
) -> Result<Entity, ColumnFault>
    ensures answer { IsValue column (WritesEntity net.now text.now) result }
    ensures entity { IfOk result IsEntity }
{
    match read_entity(alloc, net, text)? {
        Some(entity) => Ok(entity),
        None => Err(ColumnFault::Bad(column)),
    }
}

/// The kind of a property's value in this column.
pub(crate) fn kind_in(column: u8, text: &[u8]) -> Result<ValueKind, ColumnFault>
    ensures { IsValue column (WritesKind text.now) result }
{
    if text == b"t".as_slice() {
        Ok(ValueKind::Text)
    } else if text == b"n".as_slice() {
        Ok(ValueKind::Number)
    } else {
        Err(ColumnFault::Bad(column))
    }
}

/// The property's value of this kind in this column.
pub(crate) fn value_in(
    alloc: Global,
    column: u8,
    kind: ValueKind,
    text: &[u8],
) -> Result<PropValue, ColumnFault>
    ensures answer { IsValue column (WritesValue kind text.now) result }
    ensures value { IfOk result IsPropValue }
{
    match kind {
        ValueKind::Text => Ok(PropValue::Text(text_in(alloc, column, text)?)),
        ValueKind::Number => Ok(PropValue::Number(amount_in(column, text)?)),
    }
}

/// The text in this column that a property may have.
fn text_in(alloc: Global, column: u8, text: &[u8]) -> Result<Name, ColumnFault>
    ensures answer { IsValue column (λ written. (written ≡ text.now) × IsPropValue (PropValue.Text written)) result }
    ensures value { IfOk result (λ written. IsPropValue (PropValue.Text written)) }
{
    if 256 < text.len() {
        return Err(ColumnFault::Bad(column));
    }
    if has_control(text) {
        return Err(ColumnFault::Bad(column));
    }
    match str::from_utf8(text) {
        Ok(text) => Ok(Name::from_str(alloc, text)?),
        Err(_) => Err(ColumnFault::Bad(column)),
    }
}

/// Whether a control character of US-ASCII is in the text.
fn has_control(text: &[u8]) -> bool
    ensures { result ≡ list_any is_control text.now }
{
    text.iter().any(|byte| *byte < 0x20 || *byte == 0x7F)
}

/// The edit, if these columns, the first of which has this number, hold nothing.
pub(crate) fn ends(first: u8, texts: &[&[u8]], edit: Edit) -> Result<Edit, ColumnFault>
    requires { first + length texts.now ≤ 255 }
    ensures answer { IsAnswer (Ends first (map (λ text. text.now) texts.now) edit) result }
    ensures same { IfOk result (λ made. made ≡ edit) }
{
    match filled_place(texts) {
        Some(place) => Err(ColumnFault::Bad(first + place as u8)),
        None => Ok(edit),
    }
}

/// The place of the first text that isn't empty.
fn filled_place(texts: &[&[u8]]) -> Option<usize>
    ensures place { result ≡ position_from (λ text. not (length text.now == 0)) 0 texts.now }
    ensures within { IfSome result (λ place. place < length texts.now) }
{
    texts.iter().position(|text| !text.is_empty())
}
