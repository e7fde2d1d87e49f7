//! The accepting side of the server: a book of batches and its records, and the versions that are handed out.
//!
//! ```text
//! records ── Desk::open ──▶ Desk ◀── edit ── import          receipt
//!                            │ compile, version, encode, then Keeper::append, and only then the book has the batch
//!                            │ ──▶ Front ◀── Desk::front ── every reader
//!                            └──── Desk::trim: the base takes in older batches, by Keeper::rebase
//! ```
#![tactic(auto)]

mod beginning;
mod desk;
mod fault;
mod known;
mod ledger;
mod memory;
mod next_base;
mod opening;
mod places;
mod records;
mod tally;
mod trim;

pub use alto_book::{Command, EditFault, Receipt};
pub use alto_versions::Front;
pub use batch_check::BookRule;
pub use beginning::init;
pub use desk::Desk;
pub use fault::{InitFault, OpenFault, TrimFault};
pub use memory::desk_in_memory;
pub use tally::Tally;
