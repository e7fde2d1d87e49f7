//! Changes of JSON documents: JSON Merge Patch (RFC 7396) and JSON Patch (RFC 6902).
//!
//! What a patch makes of a document is a function of `specs/` over the values that the trees stand for: `Merge.antt`,
//! and `Operations.antt` for operations. The laws about both are contracts of functions that do nothing.
#![tactic(auto)]

mod laws;
mod merging;
mod operations;

pub use laws::{
    disjoint_patches_commute, merge_is_by_member, no_change, operations_read_back, order_stays,
    other_value_replaces, same_values_same_members,
};
pub use merging::merge;
pub use operations::{Op, OpsFault, PatchFault, Path, apply, ops_tree, read_ops};
