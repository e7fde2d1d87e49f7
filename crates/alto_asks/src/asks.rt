ghost use Rattle.std.specs.Prelude.{◌≡◌, ◌≢◌, Ok, Err, IfOk, IfErr, is_some, option_map, map};
ghost use Rattle.serde_json.specs.Find.{as_array, as_object, as_str};
ghost use Rattle.json_tree.specs.Tree.{data_of, items_data};
ghost use Rattle.alto_asks.specs.Asks.{ask_of, object_or_fault, text_in, texts_of, items_in, required_text};
ghost use Rattle.alto_asks.specs.Asks.{required_items, optional_text, optional_items};

use crate::fault::AskFault;
use json_tree::{Tree, TreeFault, read};
use std::alloc::Global;

/// The object that the body of an ask is. Linear in the body.
///
/// # Errors
///
/// `Bad` with `Syntax` where the body doesn't read as a tree, or isn't an object (RFC 7285, section 8.5.2).
#[tactic(auto, unfolding(crate::specs::Asks::ask_of))]
pub fn read_ask(alloc: Global, body: &[u8]) -> Result<Tree, AskFault>
    ensures ok { IfOk result (λ ask. ask_of body.now ≡ Ok (data_of ask)) }
    ensures err { IfErr result (λ fault. fault ≢ AskFault.Memory → ask_of body.now ≡ Err fault) }
{
    match read(alloc, body) {
        Ok(ask) => object_or_fault(ask),
        Err(TreeFault::Memory) => Err(AskFault::Memory),
        Err(_) => Err(AskFault::no_object()),
    }
}

fn object_or_fault(value: Tree) -> Result<Tree, AskFault>
    ensures ok { IfOk result (λ ask. object_or_fault (Ok (data_of value)) ≡ Ok (data_of ask)) }
    ensures err { IfErr result (λ fault. object_or_fault (Ok (data_of value)) ≡ Err fault) }
{
    if is_object(&value) {
        Ok(value)
    } else {
        Err(AskFault::no_object())
    }
}

#[tactic(auto, unfolding(json_tree::specs::Tree::data_of))]
fn is_object(tree: &Tree) -> bool
    ensures { result ≡ is_some (as_object (data_of tree.now)) }
{
    matches!(tree, Tree::Object(_))
}

/// The text that an ask must have in a field.
///
/// # Errors
///
/// `Bad` with `MissingField` where it has no such member, with `InvalidFieldType` where the member is no text.
#[tactic(auto, unfolding(crate::specs::Asks::required_text))]
pub fn required_text<'t>(alloc: Global, ask: &'t Tree, field: &str) -> Result<&'t str, AskFault>
    ensures ok { IfOk result (λ text. required_text field.now (data_of ask.now) ≡ Ok text.now) }
    ensures err { IfErr result (λ fault. fault ≢ AskFault.Memory
        → required_text field.now (data_of ask.now) ≡ Err fault) }
{
    match ask.member(field) {
        Some(value) => text_in(alloc, field, value),
        None => Err(AskFault::missing(alloc, field)?),
    }
}

/// The text that an ask may have in a field.
///
/// # Errors
///
/// `Bad` with `InvalidFieldType` where it has such a member, and that is no text.
#[tactic(auto, unfolding(crate::specs::Asks::optional_text))]
pub fn optional_text<'t>(
    alloc: Global,
    ask: &'t Tree,
    field: &str,
) -> Result<Option<&'t str>, AskFault>
    ensures ok { IfOk result (λ text. optional_text field.now (data_of ask.now)
        ≡ Ok (option_map (λ text. text.now) text)) }
    ensures err { IfErr result (λ fault. fault ≢ AskFault.Memory
        → optional_text field.now (data_of ask.now) ≡ Err fault) }
{
    match ask.member(field) {
        Some(value) => Ok(Some(text_in(alloc, field, value)?)),
        None => Ok(None),
    }
}

/// The text that a field's value is.
///
/// # Errors
///
/// `Bad` with `InvalidFieldType` where it is none.
pub fn text_in<'t>(alloc: Global, field: &str, value: &'t Tree) -> Result<&'t str, AskFault>
    ensures ok { IfOk result (λ text. text_in field.now (as_str (data_of value.now)) ≡ Ok text.now) }
    ensures err { IfErr result (λ fault. fault ≢ AskFault.Memory
        → text_in field.now (as_str (data_of value.now)) ≡ Err fault) }
{
    match value.as_text() {
        Some(text) => Ok(text),
        None => Err(AskFault::wrong_type(alloc, field)?),
    }
}

/// The items of the list that an ask must have in a field.
///
/// # Errors
///
/// `Bad` with `MissingField` where it has no such member, with `InvalidFieldType` where the member is no list.
#[tactic(auto, unfolding(crate::specs::Asks::required_items))]
pub fn required_items<'t>(alloc: Global, ask: &'t Tree, field: &str) -> Result<&'t [Tree], AskFault>
    ensures ok { IfOk result (λ items. required_items field.now (data_of ask.now) ≡ Ok (items_data items.now)) }
    ensures err { IfErr result (λ fault. fault ≢ AskFault.Memory
        → required_items field.now (data_of ask.now) ≡ Err fault) }
{
    match ask.member(field) {
        Some(value) => items_in(alloc, field, value),
        None => Err(AskFault::missing(alloc, field)?),
    }
}

/// The items of the list that an ask may have in a field, none where it has no such member.
///
/// # Errors
///
/// `Bad` with `InvalidFieldType` where it has such a member, and that is no list.
#[tactic(auto, unfolding(crate::specs::Asks::optional_items))]
pub fn optional_items<'t>(alloc: Global, ask: &'t Tree, field: &str) -> Result<&'t [Tree], AskFault>
    ensures ok { IfOk result (λ items. optional_items field.now (data_of ask.now) ≡ Ok (items_data items.now)) }
    ensures err { IfErr result (λ fault. fault ≢ AskFault.Memory
        → optional_items field.now (data_of ask.now) ≡ Err fault) }
{
    match ask.member(field) {
        Some(value) => items_in(alloc, field, value),
        None => Ok(&[]),
    }
}

fn items_in<'t>(alloc: Global, field: &str, value: &'t Tree) -> Result<&'t [Tree], AskFault>
    ensures ok { IfOk result (λ items. items_in field.now (as_array (data_of value.now)) ≡ Ok (items_data items.now)) }
    ensures err { IfErr result (λ fault. fault ≢ AskFault.Memory
        → items_in field.now (as_array (data_of value.now)) ≡ Err fault) }
{
    match value.as_list() {
        Some(items) => Ok(items),
        None => Err(AskFault::wrong_type(alloc, field)?),
    }
}

/// The texts that the items of a field's list are. Linear in the list.
///
/// # Errors
///
/// `Bad` with `InvalidFieldType` where an item is no text.
pub fn texts_of<'t>(alloc: Global, field: &str, items: &'t [Tree]) -> Result<Vec<&'t str>, AskFault>
    ensures ok { IfOk result (λ texts. texts_of field.now (items_data items.now)
        ≡ Ok (map (λ text. text.now) texts.items)) }
    ensures err { IfErr result (λ fault. fault ≢ AskFault.Memory
        → texts_of field.now (items_data items.now) ≡ Err fault) }
{
    let mut texts = Vec::with_capacity(alloc, items.len())?;
    for item in items {
        texts.push(text_in(alloc, field, item)?)?;
    }
    Ok(texts)
}
