//! JSON values (RFC 8259) as a server builds them: trees, and their text with no space.
//!
//! A [`Tree`] holds its own texts, and the members of an object stand in the byte order of their
//! names, each name once. What a tree says is a value of `serde_json`'s `Data`, so a document is
//! stated as such a value (`array_of`, `object_of`), and its text is `compact_text` of it.
#![tactic(auto)]

mod copying;
mod fault;
mod laws;
mod looking;
mod members;
mod name;
mod parsing;
mod pointer;
mod reading;
mod tree;
mod writing;

pub use fault::TreeFault;
pub use laws::{pointers_are_unambiguous, texts_read_back, values_are_read};
pub use members::Members;
pub use name::Name;
pub use parsing::read;
pub use pointer::{PointerFault, pointer_string, print_pointer, read_pointer};
pub use tree::Tree;
pub use writing::text;
