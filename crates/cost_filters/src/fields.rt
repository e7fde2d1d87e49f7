//! Fields inside fields.
ghost use Rattle.std.specs.Prelude.{◌≡◌, ◌≢◌, Ok, Err, IfOk, IfErr, is_some, string_bytes};
ghost use Rattle.serde_json.specs.Find.{as_array, as_object, as_str};
ghost use Rattle.json_tree.specs.Tree.{data_of, items_data};
ghost use Rattle.alto_asks.specs.Asks.{items_in, text_in, wrong_text};
ghost use Rattle.cost_filters.specs.Fields.{items_at, nested, object_in, text_at, wrong_value};

use alto_asks::{AskCode, AskFault};
use json_tree::{Name, Tree};
use std::alloc::{AllocError, Global};

/// Room for a path, which those of requests don't outgrow.
const PATH_ROOM: usize = 32;

/// The field of a member of a field's value.
pub fn nested(alloc: Global, field: &str, name: &str) -> Result<String, AllocError>
    ensures { IfOk result (λ path. string_bytes path ≡ nested field.now name.now) }
{
    let mut path = String::with_capacity(alloc, PATH_ROOM)?;
    path.push_str(field)?;
    path.push('/')?;
    path.push_str(name)?;
    Ok(path)
}

/// The value of this field can't be had.
pub(crate) fn wrong_value(alloc: Global, field: &str) -> Result<AskFault, AllocError>
    ensures { IfOk result (λ fault. fault ≡ wrong_value field.now) }
{
    Ok(AskFault::Bad {
        code: AskCode::InvalidFieldValue,
        field: Some(Name::from_str(alloc, field)?),
        value: None,
    })
}

/// A member of this field's value has this text, which it can't have.
pub(crate) fn wrong_member(
    alloc: Global,
    field: &str,
    name: &str,
    text: &str,
) -> Result<AskFault, AllocError>
    ensures { IfOk result (λ fault. fault ≡ wrong_text (nested field.now name.now) text.now) }
{
    let path = nested(alloc, field, name)?;
    AskFault::wrong_text(alloc, &path, text)
}

/// The value of a field, if it is an object.
pub fn object_in<'t>(alloc: Global, field: &str, value: &'t Tree) -> Result<&'t Tree, AskFault>
    ensures ok { IfOk result (λ object. object_in field.now (data_of value.now) ≡ Ok (data_of object.now)) }
    ensures err { IfErr result (λ fault. fault ≢ AskFault.Memory
        → object_in field.now (data_of value.now) ≡ Err fault) }
{
    if is_object(value) {
        Ok(value)
    } else {
        Err(AskFault::wrong_type(alloc, field)?)
    }
}

#[tactic(auto, unfolding(json_tree::specs::Tree::data_of))]
fn is_object(tree: &Tree) -> bool
    ensures { result ≡ is_some (as_object (data_of tree.now)) }
{
    matches!(tree, Tree::Object(_))
}

/// The items of a field's value, if it is a list.
pub(crate) fn items_in<'t>(
    alloc: Global,
    field: &str,
    value: &'t Tree,
) -> Result<&'t [Tree], AskFault>
    ensures ok { IfOk result (λ items. items_in field.now (as_array (data_of value.now)) ≡ Ok (items_data items.now)) }
    ensures err { IfErr result (λ fault. fault ≢ AskFault.Memory
        → items_in field.now (as_array (data_of value.now)) ≡ Err fault) }
{
    match value.as_list() {
        Some(items) => Ok(items),
        None => Err(AskFault::wrong_type(alloc, field)?),
    }
}

/// The text that the value of a field must have in a member.
pub(crate) fn text_at<'t>(
    alloc: Global,
    field: &str,
    name: &str,
    object: &'t Tree,
) -> Result<&'t str, AskFault>
    ensures ok { IfOk result (λ text. text_at field.now name.now (data_of object.now) ≡ Ok text.now) }
    ensures err { IfErr result (λ fault. fault ≢ AskFault.Memory
        → text_at field.now name.now (data_of object.now) ≡ Err fault) }
{
    match object.member(name) {
        Some(value) => member_text(alloc, field, name, value),
        None => Err(AskFault::missing(alloc, &nested(alloc, field, name)?)?),
    }
}

/// The text that a member of a field's value is.
fn member_text<'t>(
    alloc: Global,
    field: &str,
    name: &str,
    value: &'t Tree,
) -> Result<&'t str, AskFault>
    ensures ok { IfOk result (λ text. text_in (nested field.now name.now) (as_str (data_of value.now)) ≡ Ok text.now) }
    ensures err { IfErr result (λ fault. fault ≢ AskFault.Memory
        → text_in (nested field.now name.now) (as_str (data_of value.now)) ≡ Err fault) }
{
    match value.as_text() {
        Some(text) => Ok(text),
        None => Err(AskFault::wrong_type(alloc, &nested(alloc, field, name)?)?),
    }
}

/// The items of the list that the value of a field may have in a member, none where it has no such member.
pub fn items_at<'t>(
    alloc: Global,
    field: &str,
    name: &str,
    object: &'t Tree,
) -> Result<&'t [Tree], AskFault>
    ensures ok { IfOk result (λ items. items_at field.now name.now (data_of object.now) ≡ Ok (items_data items.now)) }
    ensures err { IfErr result (λ fault. fault ≢ AskFault.Memory
        → items_at field.now name.now (data_of object.now) ≡ Err fault) }
{
    match object.member(name) {
        Some(value) => member_items(alloc, field, name, value),
        None => Ok(&[]),
    }
}

/// The items of the list that a member of a field's value is.
fn member_items<'t>(
    alloc: Global,
    field: &str,
    name: &str,
    value: &'t Tree,
) -> Result<&'t [Tree], AskFault>
    ensures ok { IfOk result (λ items.
        items_in (nested field.now name.now) (as_array (data_of value.now)) ≡ Ok (items_data items.now)) }
    ensures err { IfErr result (λ fault. fault ≢ AskFault.Memory
        → items_in (nested field.now name.now) (as_array (data_of value.now)) ≡ Err fault) }
{
    match value.as_list() {
        Some(items) => Ok(items),
        None => Err(AskFault::wrong_type(alloc, &nested(alloc, field, name)?)?),
    }
}
