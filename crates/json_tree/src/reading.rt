//! Trees straight from the tokens of a text.
ghost use Rattle.std.specs.Prelude.{◌≡◌, ◌==◌, ◌<◌, true, Ok, Some, IfSome, OnSome, length, slice_index};
ghost use Rattle.fast_float.specs.Text.{minus};
ghost use Rattle.json.specs.Json.{items, members, value};
ghost use Rattle.serde_json.specs.Data.{no_members, unsigned};
ghost use Rattle.serde_json.specs.Read.{converted, number_of, of_items, of_json, of_members};
ghost use Rattle.json_tree.specs.Tree.{data_of, entries_data, items_data};
ghost use Rattle.json_tree.specs.Whole.{is_whole, items_are_whole, members_are_whole, whole_value};

use crate::name::Name;
use crate::tree::Tree;
use fast_float::Numeral;
use json::{Reader, Scratch, Token};
use std::alloc::Global;
use std::collections::BTreeMap;
use std::str;

/// The levels that a text may nest.
const MAX_DEPTH: usize = 127;

/// The tree that a JSON text stands for. `None` says nothing of the text: where it stands for no tree, or memory can't
/// be had, no cause is told.
pub(crate) fn read_tokens(alloc: Global, bytes: &[u8]) -> Option<Tree>
    ensures { IfSome result (λ tree. whole_value bytes.now ≡ Ok (data_of tree)) }
{
    let text = str::from_utf8(bytes).ok()?;
    let mut scratch = Scratch::new(alloc);
    let mut reader = Reader::new(text, &mut scratch).ok()?;
    let tree = read_value(alloc, &mut reader, MAX_DEPTH)?;
    if reader.next().is_some() {
        return None;
    }
    Some(tree)
}

/// The value that comes next, with lists and objects nested no deeper than this.
#[cycle(read_value)]
#[tactic(auto, unfolding(crate::specs::Tree::data_of))]
fn read_value(alloc: Global, reader: &mut Reader<'_>, depth: usize) -> Option<Tree>
    ensures value { IfSome result (λ tree. converted of_json (value depth reader.old)
        ≡ Some (data_of tree, reader.new)) }
    ensures whole { IfSome result (λ tree. is_whole (data_of tree) ≡ true) }
    ensures shorter { OnSome result (length reader.new < length reader.old) }
{
    let token = reader.next()?;
    match token {
        Token::Null => Some(Tree::Null),
        Token::Bool(truth) => Some(Tree::Bool(truth)),
        Token::Number(text) => Some(Tree::Num(whole_number(text)?)),
        Token::String(text) => Some(Tree::text(alloc, text).ok()?),
        Token::BeginArray => Some(Tree::List(read_items(alloc, reader, depth.checked_sub(1)?)?)),
        Token::BeginObject => Some(Tree::Object(read_members(
            alloc,
            reader,
            depth.checked_sub(1)?,
        )?)),
        Token::EndArray | Token::EndObject | Token::Key(_) | Token::Bad => None,
    }
}

/// The number that a text writes as a whole number from 0 to 2^64 - 1.
fn whole_number(text: &str) -> Option<u64>
    ensures { IfSome result (λ number. number_of text.now ≡ Some (unsigned number)) }
{
    let bytes = text.as_bytes();
    if has_minus(bytes) {
        return None;
    }
    Numeral::scan(bytes).to_u64()
}

fn has_minus(bytes: &[u8]) -> bool
    ensures { result ≡ (slice_index bytes.now 0 == minus) }
{
    bytes.first() == Some(&b'-')
}

/// The values up to the bracket that ends their list.
#[cycle(read_value)]
fn read_items(alloc: Global, reader: &mut Reader<'_>, depth: usize) -> Option<Vec<Tree>>
    ensures items { IfSome result (λ trees. converted of_items (items (value depth) (length reader.old) reader.old)
        ≡ Some (items_data trees.items, reader.new)) }
    ensures whole { IfSome result (λ trees. items_are_whole (items_data trees.items) ≡ true) }
    ensures shorter { OnSome result (length reader.new < length reader.old) }
{
    let mut trees = Vec::new(alloc);
    'items: while !reader.take_end_array() {
        let tree = read_value(alloc, reader, depth)?;
        trees.push(tree).ok()?;
    }
    Some(trees)
}

/// The members up to the brace that ends their object, of a repeated name the last.
#[cycle(read_value)]
fn read_members(
    alloc: Global,
    reader: &mut Reader<'_>,
    depth: usize,
) -> Option<BTreeMap<Name, Tree>>
    ensures members { IfSome result (λ map. converted (λ ms. of_members ms no_members)
        (members (value depth) (length reader.old) reader.old)
        ≡ Some (entries_data map.entries, reader.new)) }
    ensures whole { IfSome result (λ map. members_are_whole (entries_data map.entries) ≡ true) }
    ensures shorter { OnSome result (length reader.new < length reader.old) }
{
    let mut map = BTreeMap::new(alloc);
    'members: while let Some(name) = reader.next_key().ok()? {
        let key = Name::from_str(alloc, name).ok()?;
        let tree = read_value(alloc, reader, depth)?;
        drop(map.insert(key, tree).ok()?);
    }
    Some(map)
}
