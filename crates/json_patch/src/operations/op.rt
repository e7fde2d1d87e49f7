ghost use Rattle.std.specs.Prelude.{◌≡◌, option_map};

use crate::operations::path::Path;
use json_tree::Tree;

/// An operation of JSON Patch (RFC 6902, section 4).
#[derive(Debug, Drop)]
pub enum Op {
    /// Sets a member of an object, or gives the whole document.
    Add {
        /// Where the value is put.
        path: Path,
        /// The value.
        value: Tree,
    },
    /// Takes a member away.
    Remove {
        /// Where it is.
        path: Path,
    },
    /// Puts a value in the place of one that is there.
    Replace {
        /// Where the value is put.
        path: Path,
        /// The value.
        value: Tree,
    },
}

impl Op {
    ghost use Rattle.json_tree.specs.Tree.{data_of};
    ghost use Rattle.json_patch.specs.Operations.{operation_of};
    ghost use Rattle.json_patch.specs.OperationList.{action_name, action_value};

    /// The path of its target. Takes no memory.
    #[tactic(auto, unfolding(crate::specs::Operations::operation_of))]
    pub fn path(&self) -> &Path
        ensures { result.now ≡ (operation_of self.now).path }
    {
        match self {
            Op::Add { path, .. } | Op::Remove { path } | Op::Replace { path, .. } => path,
        }
    }

    /// Its value, if it has one. Takes no memory.
    #[tactic(auto, unfolding(crate::specs::Operations::operation_of))]
    pub fn value(&self) -> Option<&Tree>
        ensures { option_map (λ tree. data_of tree.now) result
            ≡ action_value (operation_of self.now).action }
    {
        match self {
            Op::Add { value, .. } | Op::Replace { value, .. } => Some(value),
            Op::Remove { .. } => None,
        }
    }

    /// What a document calls it. Takes no memory.
    #[tactic(auto, unfolding(crate::specs::Operations::operation_of))]
    pub fn name(&self) -> &'static str
        ensures { result.now ≡ action_name (operation_of self.now).action }
    {
        match self {
            Op::Add { .. } => "add",
            Op::Remove { .. } => "remove",
            Op::Replace { .. } => "replace",
        }
    }
}
