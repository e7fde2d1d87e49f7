//! Fields inside fields, and values of which one alone can be had.
ghost use Rattle.std.specs.Prelude.{◌≡◌, ◌≢◌, Ok, Err, IfOk, IfErr, OnOk, is_some, string_bytes};
ghost use Rattle.serde_json.specs.Find.{as_array, as_object};
ghost use Rattle.json_tree.specs.Tree.{data_of, items_data};
ghost use Rattle.alto_asks.specs.Asks.{items_in};
ghost use Rattle.path_docs.specs.Fields.{items_at, nested, object_in, only, text_at, without, wrong_value};

use alto_asks::{AskCode, AskFault};
use json_tree::{Name, Tree};
use std::alloc::{AllocError, Global};

/// The field of a member of a field's value.
pub(crate) fn nested(alloc: Global, field: &str, name: &str) -> Result<String, AllocError>
    ensures { IfOk result (λ path. string_bytes path ≡ nested field.now name.now) }
{
    format!(in alloc; "{field}/{name}")
}

/// The value of this field can't be had.
fn wrong_value(alloc: Global, field: &str) -> Result<AskFault, AllocError>
    ensures { IfOk result (λ fault. fault ≡ wrong_value field.now) }
{
    Ok(AskFault::Bad {
        code: AskCode::InvalidFieldValue,
        field: Some(Name::from_str(alloc, field)?),
        value: None,
    })
}

/// The ask has no such field.
pub(crate) fn without(alloc: Global, field: &str, ask: &Tree) -> Result<(), AskFault>
    ensures ok { OnOk result (without field.now (data_of ask.now) ≡ Ok (data_of ask.now)) }
    ensures err { IfErr result (λ fault. fault ≢ AskFault.Memory
        → without field.now (data_of ask.now) ≡ Err fault) }
{
    match ask.member(field) {
        Some(_) => Err(wrong_value(alloc, field)?),
        None => Ok(()),
    }
}

/// The text of a field is the one that can be had.
pub(crate) fn only(alloc: Global, allowed: &str, field: &str, text: &str) -> Result<(), AskFault>
    ensures ok { OnOk result (only allowed.now field.now text.now ≡ Ok text.now) }
    ensures err { IfErr result (λ fault. fault ≢ AskFault.Memory
        → only allowed.now field.now text.now ≡ Err fault) }
{
    if text == allowed {
        Ok(())
    } else {
        Err(AskFault::wrong_text(alloc, field, text)?)
    }
}

/// The value of a field, if it is an object.
pub(crate) fn object_in<'t>(
    alloc: Global,
    field: &str,
    value: &'t Tree,
) -> Result<&'t Tree, AskFault>
    ensures ok { IfOk result (λ found. object_in field.now (data_of value.now) ≡ Ok (data_of found.now)) }
    ensures err { IfErr result (λ fault. fault ≢ AskFault.Memory
        → object_in field.now (data_of value.now) ≡ Err fault) }
{
    if is_object(value) {
        Ok(value)
    } else {
        Err(AskFault::wrong_type(alloc, field)?)
    }
}

#[tactic(auto, unfolding(json_tree::specs::Tree::data_of))]
fn is_object(tree: &Tree) -> bool
    ensures { result ≡ is_some (as_object (data_of tree.now)) }
{
    matches!(tree, Tree::Object(_))
}

/// The text that the value of a field must have in a member.
pub(crate) fn text_at<'t>(
    alloc: Global,
    field: &str,
    name: &str,
    value: &'t Tree,
) -> Result<&'t str, AskFault>
    ensures ok { IfOk result (λ text. text_at field.now name.now (data_of value.now) ≡ Ok text.now) }
    ensures err { IfErr result (λ fault. fault ≢ AskFault.Memory
        → text_at field.now name.now (data_of value.now) ≡ Err fault) }
{
    let path = nested(alloc, field, name)?;
    match value.member(name) {
        Some(member) => alto_asks::text_in(alloc, &path, member),
        None => Err(AskFault::missing(alloc, &path)?),
    }
}

/// The items of the list that the value of a field may have in a member, none where it has no such member.
pub(crate) fn items_at<'t>(
    alloc: Global,
    field: &str,
    name: &str,
    value: &'t Tree,
) -> Result<&'t [Tree], AskFault>
    ensures ok { IfOk result (λ items. items_at field.now name.now (data_of value.now) ≡ Ok (items_data items.now)) }
    ensures err { IfErr result (λ fault. fault ≢ AskFault.Memory
        → items_at field.now name.now (data_of value.now) ≡ Err fault) }
{
    let path = nested(alloc, field, name)?;
    match value.member(name) {
        Some(member) => items_in(alloc, &path, member),
        None => Ok(&[]),
    }
}

/// The items of a field's value, if it is a list.
fn items_in<'t>(alloc: Global, field: &str, value: &'t Tree) -> Result<&'t [Tree], AskFault>
    ensures ok { IfOk result (λ items. items_in field.now (as_array (data_of value.now)) ≡ Ok (items_data items.now)) }
    ensures err { IfErr result (λ fault. fault ≢ AskFault.Memory
        → items_in field.now (as_array (data_of value.now)) ≡ Err fault) }
{
    match value.as_list() {
        Some(items) => Ok(items),
        None => Err(AskFault::wrong_type(alloc, field)?),
    }
}
