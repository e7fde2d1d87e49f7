ghost use Rattle.std.specs.Prelude.{◌≡◌, ◌≢◌, true, false, Ok, Err, None, Some, IfOk, IfErr};
ghost use Rattle.serde_json.specs.View.{view, items_view, members_view};
ghost use Rattle.json_tree.specs.Tree.{data_of, items_data, entries_data};
ghost use Rattle.json_tree.specs.Whole.{is_whole, items_are_whole, members_are_whole, value_of, whole_value};

use crate::fault::TreeFault;
use crate::name::Name;
use crate::reading::read_tokens;
use crate::tree::Tree;
use serde_json::{Map, Value};
use std::alloc::Global;
use std::collections::BTreeMap;

/// The tree that a JSON text stands for (RFC 8259). Of a repeated member the last value counts, and numbers are
/// judged on the value that stays. The time is linear in the text but for the order of the members; a text that isn't
/// read at once is read once more, to tell why.
///
/// # Errors
///
/// `Syntax` where the bytes aren't UTF-8, are no JSON text, hold a number too large for a float, or nest more than
/// 127 deep; `NotWhole` where a number of the value isn't written as a whole number from 0 to 2^64 - 1.
#[tactic(auto, unfolding(crate::specs::Whole::whole_value))]
pub fn read(alloc: Global, bytes: &[u8]) -> Result<Tree, TreeFault>
    ensures ok { IfOk result (λ tree. whole_value bytes.now ≡ Ok (data_of tree)) }
    ensures err { IfErr result (λ fault. fault ≢ TreeFault.Memory
        → whole_value bytes.now ≡ Err fault) }
{
    match read_tokens(alloc, bytes) {
        Some(tree) => Ok(tree),
        None => read_by_value(alloc, bytes),
    }
}

/// The same by way of the value that serde_json reads, whose texts are moved into the tree.
#[tactic(auto, unfolding(crate::specs::Whole::whole_value))]
fn read_by_value(alloc: Global, bytes: &[u8]) -> Result<Tree, TreeFault>
    ensures ok { IfOk result (λ tree. whole_value bytes.now ≡ Ok (data_of tree)) }
    ensures err { IfErr result (λ fault. fault ≢ TreeFault.Memory
        → whole_value bytes.now ≡ Err fault) }
{
    let value = value_of(alloc, bytes)?;
    tree_of(alloc, value)
}

#[tactic(auto, unfolding(crate::specs::Whole::value_of))]
fn value_of(alloc: Global, bytes: &[u8]) -> Result<Value, TreeFault>
    ensures ok { IfOk result (λ value. value_of bytes.now ≡ Some (view value)) }
    ensures err { IfErr result (λ fault. fault ≢ TreeFault.Memory
        → (fault ≡ TreeFault.Syntax) × (value_of bytes.now ≡ None)) }
{
    match Value::from_slice(alloc, bytes) {
        Ok(value) => Ok(value),
        Err(error) => Err(if error.is_memory() {
            TreeFault::Memory
        } else {
            TreeFault::Syntax
        }),
    }
}

#[cycle(tree_of)]
#[tactic(auto, unfolding(crate::specs::Tree::data_of))]
fn tree_of(alloc: Global, value: Value) -> Result<Tree, TreeFault>
    ensures ok { IfOk result (λ tree. (is_whole (view value) ≡ true)
        × (data_of tree ≡ view value)) }
    ensures err { IfErr result (λ fault. fault ≢ TreeFault.Memory
        → (fault ≡ TreeFault.NotWhole) × (is_whole (view value) ≡ false)) }
{
    match value {
        Value::Null => Ok(Tree::Null),
        Value::Bool(truth) => Ok(Tree::Bool(truth)),
        Value::Number(number) => match number.as_u64() {
            Some(number) => Ok(Tree::Num(number)),
            None => Err(TreeFault::NotWhole),
        },
        Value::String(text) => Ok(Tree::Text(Name::new(text))),
        Value::Array(values) => Ok(Tree::List(list_of(alloc, values)?)),
        Value::Object(members) => Ok(Tree::Object(members_of(alloc, members)?)),
    }
}

#[cycle(tree_of)]
fn list_of(alloc: Global, values: Vec<Value>) -> Result<Vec<Tree>, TreeFault>
    ensures ok { IfOk result (λ trees. (items_are_whole (items_view values.items) ≡ true)
        × (items_data trees.items ≡ items_view values.items)) }
    ensures err { IfErr result (λ fault. fault ≢ TreeFault.Memory
        → (fault ≡ TreeFault.NotWhole) × (items_are_whole (items_view values.items) ≡ false)) }
{
    let mut trees = Vec::with_capacity(alloc, values.len())?;
    for value in values {
        trees.push(tree_of(alloc, value)?)?;
    }
    Ok(trees)
}

#[cycle(tree_of)]
fn members_of(alloc: Global, members: Map<String, Value>) -> Result<BTreeMap<Name, Tree>, TreeFault>
    ensures ok { IfOk result (λ map. (members_are_whole (members_view members.entries) ≡ true)
        × (entries_data map.entries ≡ members_view members.entries)) }
    ensures err { IfErr result (λ fault. fault ≢ TreeFault.Memory
        → (fault ≡ TreeFault.NotWhole)
        × (members_are_whole (members_view members.entries) ≡ false)) }
{
    let mut map = BTreeMap::new(alloc);
    for (name, value) in members {
        let tree = tree_of(alloc, value)?;
        drop(map.insert(Name::new(name), tree)?);
    }
    Ok(map)
}
