ghost use Rattle.std.specs.Prelude.{◌≡◌, ◌≢◌, ℕ, List, Some, IfOk, IfErr, MatchOption, codes};
ghost use Rattle.serde_json.specs.Data.{string};
ghost use Rattle.serde_json.specs.Find.{get};
ghost use Rattle.json_tree.specs.Pointer.{pointer_text};
ghost use Rattle.json_tree.specs.Tree.{data_of};
ghost use Rattle.json_patch.specs.OperationList.{Says, SaysAll, IsFaultOf};
ghost use Rattle.json_patch.specs.Operations.{Operation, operation_of, operations_of};

use crate::operations::op::Op;
use crate::operations::ops_fault::OpsFault;
use crate::operations::path::Path;
use json_tree::{PointerFault, Tree, read_pointer};
use std::alloc::{AllocError, Global};

/// The operations that a JSON document says (RFC 6902, sections 3 and 4). An item may have members of other names.
///
/// # Errors
///
/// `BadOp` with the number of the first item, from 0, that is no operation: no object, one whose `op` is none of add,
/// remove and replace, whose `path` is no pointer, or that has no `value` and needs one; `BadOp(0)` where the document
/// is no list.
pub fn read_ops(alloc: Global, tree: &Tree) -> Result<Vec<Op>, OpsFault>
    ensures ok { IfOk result (λ ops. SaysAll (data_of tree.now) (operations_of ops.items)) }
    ensures err { IfErr result (IsFaultOf (data_of tree.now)) }
{
    let Some(items) = tree.as_list() else {
        return Err(OpsFault::BadOp(0));
    };
    let mut ops = Vec::with_capacity(alloc, items.len())?;
    for (k, item) in items.iter().enumerate() {
        match read_op(alloc, item)? {
            Some(op) => ops.push(op)?,
            None => return Err(OpsFault::BadOp(k)),
        }
    }
    Ok(ops)
}

fn read_op(alloc: Global, item: &Tree) -> Result<Option<Op>, AllocError>
    ensures { IfOk result (λ read. MatchOption read
        ((operation : Operation) → Says (data_of item.now) operation → ⊥)
        (λ op. Says (data_of item.now) (operation_of op))) }
{
    let Some(name) = text_at(item, "op") else {
        return Ok(None);
    };
    let Some(path) = path_of(alloc, item)? else {
        return Ok(None);
    };
    if name == "remove" {
        return Ok(Some(Op::Remove { path }));
    }
    let Some(value) = item.member("value") else {
        return Ok(None);
    };
    let value = value.clone()?;
    if name == "add" {
        return Ok(Some(Op::Add { path, value }));
    }
    if name == "replace" {
        return Ok(Some(Op::Replace { path, value }));
    }
    Ok(None)
}

/// The path of an operation, if its pointer is one.
fn path_of(alloc: Global, item: &Tree) -> Result<Option<Path>, AllocError>
    ensures { IfOk result (λ read. MatchOption read
        ((names : List (List ℕ)) → get (codes "path") (data_of item.now) ≢ Some (string (pointer_text names)))
        (λ path. get (codes "path") (data_of item.now) ≡ Some (string (pointer_text path)))) }
{
    let Some(pointer) = text_at(item, "path") else {
        return Ok(None);
    };
    match read_pointer(alloc, pointer) {
        Ok(names) => Ok(Some(Path::new(names))),
        Err(fault) => match fault {
            PointerFault::BadAt(_) => Ok(None),
            PointerFault::Memory => Err(AllocError),
        },
    }
}

/// The text of a member, if it is there and a text.
fn text_at<'t>(item: &'t Tree, name: &str) -> Option<&'t str>
    ensures { MatchOption result
        ((text : List ℕ) → get name.now (data_of item.now) ≢ Some (string text))
        (λ text. get name.now (data_of item.now) ≡ Some (string text.now)) }
{
    item.member(name)?.as_text()
}
