//! Lists of named items in the order of their names, which share what they have in common: a list that differs from
//! another in few items makes anew only the runs of items that these are in.
//!
//! ```text
//! list    ┌───────────┬───────────┬──────────┐
//! runs    [a b .. f]   [g h .. m]   [n .. z]      of 1 to 32 items, each behind an `Arc`
//! items    ↓ ↓    ↓     ↓ ↓    ↓     ↓    ↓      each behind an `Arc`
//! ```
#![tactic(auto)]

mod builder;
mod change;
mod heads;
mod items;
mod list;
mod named;
mod rest;
mod run;

pub use change::Change;
pub use items::Items;
pub use list::SharedList;
pub use named::Named;
