//! The writes of an import: its edits made one after another, each checked against the rules.
#![tactic(auto)]

mod checks;
mod compiler;
mod counted;
mod draft;
mod index;
mod kept;
mod keys;
mod owners;
mod parts;
mod pids;
mod place;
mod runs;
mod shared;
mod sizes;
mod versions;
mod withdrawal;
mod written;

pub use alto_edits::{CompileFault, Edit, Past, PropValue, Rule};
pub use compiler::compile;
