//! Cost constraints as clients write them (RFC 7285, section 11.3.2.3, with the index of RFC 8189).
//!
//! A constraint is exact to the millionth and never a float. `Stage` reads its text byte by byte.
#![tactic(auto)]

mod constraint;
mod digits;
mod fault;
mod laws;
mod lists;
mod read;
mod stage;

pub use constraint::{Constraint, Relation, holds};
pub use fault::ConstraintFault;
pub use laws::spelled_by_grammar;
pub use lists::{all_hold, one_holds};
pub use read::read_constraint;
