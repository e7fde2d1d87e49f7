//! What a client does with the texts of documents and of bodies.
ghost use Rattle.std.specs.Prelude.{◌≡◌, ◌&&◌, Ok, IfOk, List, option_map};
ghost use Rattle.std.specs.Result.{result_ok};
ghost use Rattle.serde_json.specs.Data.{Data};
ghost use Rattle.json_tree.specs.Tree.{data_of};
ghost use Rattle.json_tree.specs.Whole.{whole_value};
ghost use Rattle.json_patch.specs.OperationList.{operations_data};
ghost use Rattle.json_patch.specs.Operations.{Operation, operations_applied, operations_of};
ghost use Rattle.alto_drill.specs.Trials.{has_text, reached_by_merge, reached_by_operations};

use json_patch::{Op, OpsFault, PatchFault, apply, merge, read_ops};
use json_tree::{Tree, TreeFault, read, text};
use std::alloc::{AllocError, Global};

/// Whether a body, read as a whole document, has the document's text again.
pub(crate) fn document_leads(
    alloc: Global,
    body: &[u8],
    document: &[u8],
) -> Result<bool, AllocError>
    ensures { IfOk result (λ leads. leads ≡ has_text document.now (result_ok (whole_value body.now))) }
{
    let reached = value_of(alloc, body)?;
    has_text(alloc, document, reached)
}

/// Whether both bodies, a merge patch and operations, lead from the document before to this document.
pub(crate) fn patches_lead(
    alloc: Global,
    before: &[u8],
    merge: &[u8],
    operations: &[u8],
    document: &[u8],
) -> Result<bool, AllocError>
    requires merge { (change : Data) × (whole_value merge.now ≡ Ok change) }
    requires operations { (changes : List Operation) × (whole_value operations.now ≡ Ok (operations_data changes)) }
    ensures { IfOk result (λ leads. (change : Data) (changes : List Operation)
        → whole_value merge.now ≡ Ok change → whole_value operations.now ≡ Ok (operations_data changes)
        → leads ≡ (has_text document.now (reached_by_merge change (result_ok (whole_value before.now)))
        && has_text document.now (reached_by_operations changes (result_ok (whole_value before.now))))) }
{
    let by_merge = merge_leads(alloc, before, merge, document)?;
    let by_operations = operations_lead(alloc, before, operations, document)?;
    Ok(both(by_merge, by_operations))
}

fn both(first: bool, second: bool) -> bool
    ensures { result ≡ (first && second) }
{
    first && second
}

/// Whether a body, read as a merge patch (RFC 7396), leads from the document before to this document.
fn merge_leads(
    alloc: Global,
    before: &[u8],
    body: &[u8],
    document: &[u8],
) -> Result<bool, AllocError>
    requires { (change : Data) × (whole_value body.now ≡ Ok change) }
    ensures { IfOk result (λ leads. (change : Data) → whole_value body.now ≡ Ok change
        → leads ≡ has_text document.now (reached_by_merge change (result_ok (whole_value before.now)))) }
{
    let Some(held) = value_of(alloc, before)? else {
        return Ok(false);
    };
    let Some(change) = value_of(alloc, body)? else {
        unreachable!();
    };
    let reached = merge(alloc, held, &change)?;
    has_text(alloc, document, Some(reached))
}

/// Whether a body, read as operations (RFC 6902), leads from the document before to this document.
fn operations_lead(
    alloc: Global,
    before: &[u8],
    body: &[u8],
    document: &[u8],
) -> Result<bool, AllocError>
    requires { (changes : List Operation) × (whole_value body.now ≡ Ok (operations_data changes)) }
    ensures { IfOk result (λ leads. (changes : List Operation) → whole_value body.now ≡ Ok (operations_data changes)
        → leads ≡ has_text document.now (reached_by_operations changes (result_ok (whole_value before.now)))) }
{
    let Some(held) = value_of(alloc, before)? else {
        return Ok(false);
    };
    let changes = operations_in(alloc, body)?;
    let reached = applied(held, &changes)?;
    has_text(alloc, document, reached)
}

/// The operations that a body has.
fn operations_in(alloc: Global, body: &[u8]) -> Result<Vec<Op>, AllocError>
    requires { (changes : List Operation) × (whole_value body.now ≡ Ok (operations_data changes)) }
    ensures { IfOk result (λ ops. (changes : List Operation) → whole_value body.now ≡ Ok (operations_data changes)
        → operations_of ops.items ≡ changes) }
{
    let Some(said) = value_of(alloc, body)? else {
        unreachable!();
    };
    operations_said(alloc, &said)
}

/// The operations that a document says.
fn operations_said(alloc: Global, said: &Tree) -> Result<Vec<Op>, AllocError>
    requires { (changes : List Operation) × (data_of said.now ≡ operations_data changes) }
    ensures { IfOk result (λ ops. (changes : List Operation) → data_of said.now ≡ operations_data changes
        → operations_of ops.items ≡ changes) }
{
    match read_ops(alloc, said) {
        Ok(ops) => Ok(ops),
        Err(OpsFault::Memory) => Err(AllocError),
        Err(OpsFault::BadOp(_)) => unreachable!(),
    }
}

/// What operations make of a document, if each can be done.
fn applied(held: Tree, changes: &[Op]) -> Result<Option<Tree>, AllocError>
    ensures { IfOk result (λ reached. option_map data_of reached
        ≡ result_ok (operations_applied (operations_of changes.now) (data_of held))) }
{
    match apply(held, changes) {
        Ok(reached) => Ok(Some(reached)),
        Err(PatchFault::Memory) => Err(AllocError),
        Err(_) => Ok(None),
    }
}

/// The value that a text is read as, if it is one of JSON.
fn value_of(alloc: Global, text: &[u8]) -> Result<Option<Tree>, AllocError>
    ensures { IfOk result (λ value. option_map data_of value ≡ result_ok (whole_value text.now)) }
{
    match read(alloc, text) {
        Ok(value) => Ok(Some(value)),
        Err(TreeFault::Memory) => Err(AllocError),
        Err(_) => Ok(None),
    }
}

/// Whether there is a value, and it has this text.
fn has_text(alloc: Global, document: &[u8], value: Option<Tree>) -> Result<bool, AllocError>
    ensures { IfOk result (λ same. same ≡ has_text document.now (option_map data_of value)) }
{
    match value {
        Some(tree) => Ok(text(alloc, &tree)?.as_slice() == document),
        None => Ok(false),
    }
}
