//! JSON Patch (RFC 6902) at paths that lead through objects alone.

mod applying;
mod op;
mod ops_fault;
mod patch_fault;
mod path;
mod reading;
mod writing;

pub use applying::apply;
pub use op::Op;
pub use ops_fault::OpsFault;
pub use patch_fault::PatchFault;
pub use path::Path;
pub use reading::read_ops;
pub use writing::ops_tree;
