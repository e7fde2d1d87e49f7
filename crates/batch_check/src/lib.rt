//! The judge of a batch that is read from a store: the rows after it, or the first rule that it breaks.
//!
//! The rules are in `specs/Rules`: a batch has exactly the version rows of its other writes, leads from good rows to
//! good rows, and stays within the numbers. [`check`] looks only at what the batch can have changed. The laws about the
//! rules are contracts of functions that do nothing. What [`check`] asks of rows can be asked by itself, of the rows
//! of a base: [`keep_declared`], [`keep_one_pid`], [`are_within`].
#![tactic(auto)]

mod batch;
mod good;
mod laws;
mod lookup;
mod needs;
mod numbers;
mod owners;
mod place;
mod rule;
mod touched;
mod versions;
mod withdrawn;

pub use alto_edits::Past;
pub use batch::check;
pub use laws::{kept_rules_are_not_broken, one_rule_is_broken_first, unbroken_rules_are_kept};
pub use numbers::are_within;
pub use owners::keep_one_pid;
pub use rule::{BookRule, CheckFault};
pub use withdrawn::keep_declared;
