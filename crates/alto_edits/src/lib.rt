//! The edits of an import: what each may hold, the rules that it may break, and the writes that it makes.
//!
//! The definitions are in `specs/`: what an edit may hold (`Edits`), the rules in their order (`Rules`), the writes of
//! an edit (`Writes`), the version rows that go with them (`Versions`), what a whole batch comes to (`Compiled`), and
//! how many rows there may be (`Limits`). The laws about them are contracts of functions that do nothing.
#![tactic(auto)]

mod edit;
mod laws;
mod rule;

pub use edit::{Edit, PropValue};
pub use laws::{compiled_rows_are_good, compiled_rows_are_within, compiled_writes_fit};
pub use rule::{CompileFault, Past, Rule};
