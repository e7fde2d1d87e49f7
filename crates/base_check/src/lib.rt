//! The judge of a book's base that is read from a store: its rows, or that it breaks the rule of bases.
//!
//! The rule is in `specs/Rules`: no two receipts have one id, their moments never fall, the rows are good and within
//! the numbers, and no version is above the number of receipts. `batch_check` judges the batches behind the base, and
//! what it asks of rows is asked here too.
#![tactic(auto)]

mod base;
mod numbered;
mod receipts;
mod rows;

pub use base::check_base;
