ghost use Rattle.std.specs.Prelude.{◌≡◌, IfOk};
ghost use Rattle.json_tree.specs.Tree.{data_of};
ghost use Rattle.json_patch.specs.OperationList.{operation_data, operations_data};
ghost use Rattle.json_patch.specs.Operations.{operation_of, operations_of};

use crate::operations::op::Op;
use json_tree::{Members, Name, Tree, pointer_string};
use std::alloc::{AllocError, Global};

/// The operations as a JSON document (RFC 6902, section 3): a list of objects, their paths as pointers (RFC 6901).
pub fn ops_tree(alloc: Global, ops: &[Op]) -> Result<Tree, AllocError>
    ensures { IfOk result (λ tree. data_of tree ≡ operations_data (operations_of ops.now)) }
{
    let mut trees = Vec::with_capacity(alloc, ops.len())?;
    for op in ops {
        trees.push(op_tree(alloc, op)?)?;
    }
    Ok(Tree::list(trees))
}

fn op_tree(alloc: Global, op: &Op) -> Result<Tree, AllocError>
    ensures { IfOk result (λ tree. data_of tree ≡ operation_data (operation_of op.now)) }
{
    let mut members = Members::new(alloc);
    members.put(alloc, "op", Tree::text(alloc, op.name())?)?;
    let path = Name::new(pointer_string(alloc, op.path().names())?);
    members.put(alloc, "path", Tree::from_name(path))?;
    if let Some(value) = op.value() {
        members.put(alloc, "value", value.clone()?)?;
    }
    Ok(members.into_tree())
}
