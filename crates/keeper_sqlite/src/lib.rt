//! Records in a SQLite database: one table, whose rows with a number from 0 on are the rows behind the base, and whose
//! row −1−k is piece k of the base.
//!
//! Each statement is behind a small function of its own. The keeper counts each refusal of the database, unless it is
//! out of memory. While the disk was clean and no fault has shut the database, contracts see what each call does to the
//! records. What a crash then finds they see also once a fault has shut it: the keeper asks first whether it is open,
//! and writes nothing any more where it isn't.
#![tactic(auto)]

mod base;
mod reading;
mod sql_keeper;
mod statements;

pub use sql_keeper::SqlKeeper;
