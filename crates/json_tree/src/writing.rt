ghost use Rattle.std.specs.Prelude.{◌≡◌, ◌≤◌, ◌++◌, true, Some, Ok, IfOk, OnOk};
ghost use Rattle.json.specs.Tree.{json_tokens, items_tokens, members_tokens};
ghost use Rattle.serde_json.specs.Data.{depth, no_members};
ghost use Rattle.serde_json.specs.Read.{read, max_depth, of_json, of_items, of_members};
ghost use Rattle.serde_json.specs.Written.{compact_text, outline, items_outline, members_outline};
ghost use Rattle.json_tree.specs.Tree.{data_of, items_data, entries_data};
ghost use Rattle.json_tree.specs.Whole.{is_whole, items_are_whole, members_are_whole, whole_value};

use crate::name::Name;
use crate::tree::Tree;
use json::Writer;
use std::alloc::{AllocError, Global};
use std::collections::BTreeMap;

/// The tree's text with no space, in UTF-8, an object's members in the byte order of their names
/// (RFC 8259; what serde_json prints for the same value).
pub fn text(alloc: Global, tree: &Tree) -> Result<Vec<u8>, AllocError>
    ensures text { IfOk result (λ bytes. bytes.items ≡ compact_text (data_of tree.now)) }
    ensures reads_back { IfOk result (λ bytes. depth (data_of tree.now) ≤ max_depth
        → read bytes.items ≡ Some (data_of tree.now)) }
    ensures whole { IfOk result (λ bytes. depth (data_of tree.now) ≤ max_depth
        → whole_value bytes.items ≡ Ok (data_of tree.now)) }
{
    let mut out = Writer::new(Vec::new(alloc));
    write(tree, &mut out)?;
    Ok(out.into_inner())
}

#[cycle(write)]
#[tactic(auto, unfolding(crate::specs::Tree::data_of))]
fn write(tree: &Tree, out: &mut Writer) -> Result<(), AllocError>
    ensures tokens { OnOk result (out.new.tokens
        ≡ out.old.tokens ++ json_tokens (outline (data_of tree.now))) }
    ensures reads { OnOk result (of_json (outline (data_of tree.now)) ≡ Some (data_of tree.now)) }
    ensures whole { OnOk result (is_whole (data_of tree.now) ≡ true) }
    ensures before { out.new.before ≡ out.old.before }
{
    match tree {
        Tree::Null => out.null(),
        Tree::Bool(truth) => out.boolean(*truth),
        Tree::Num(number) => out.u64(*number),
        Tree::Text(text) => out.string(text.as_str()),
        Tree::Short(text) => out.string(text.as_str()),
        Tree::List(trees) => {
            out.begin_array()?;
            write_items(trees, out)
        }
        Tree::Object(members) => {
            out.begin_object()?;
            write_members(members, out)
        }
    }
}

#[cycle(write)]
fn write_items(trees: &Vec<Tree>, out: &mut Writer) -> Result<(), AllocError>
    ensures tokens { OnOk result (out.new.tokens
        ≡ out.old.tokens ++ items_tokens (items_outline (items_data trees.now.items))) }
    ensures reads { OnOk result (of_items (items_outline (items_data trees.now.items))
        ≡ Some (items_data trees.now.items)) }
    ensures whole { OnOk result (items_are_whole (items_data trees.now.items) ≡ true) }
    ensures before { out.new.before ≡ out.old.before }
{
    for tree in trees {
        write(tree, out)?;
    }
    out.end_array()
}

#[cycle(write)]
fn write_members(members: &BTreeMap<Name, Tree>, out: &mut Writer) -> Result<(), AllocError>
    ensures tokens { OnOk result (out.new.tokens
        ≡ out.old.tokens ++ members_tokens (members_outline (entries_data members.now.entries))) }
    ensures reads { OnOk result
        (of_members (members_outline (entries_data members.now.entries)) no_members
        ≡ Some (entries_data members.now.entries)) }
    ensures whole { OnOk result (members_are_whole (entries_data members.now.entries) ≡ true) }
    ensures before { out.new.before ≡ out.old.before }
{
    for (name, tree) in members.iter() {
        out.key(name.as_str())?;
        write(tree, out)?;
    }
    out.end_object()
}
