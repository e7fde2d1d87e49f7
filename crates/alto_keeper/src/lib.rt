//! Where a book's records are kept: a base in pieces, and rows behind it, each with its number.
//!
//! `Keeper` is what a desk asks of a place for records, and `Vault` opens keepers by their paths. Neither says what the
//! bytes mean. What is held is told of records in memory (`MemKeeper`, `MemVault`), and of others while nothing has put
//! it in doubt.
#![tactic(auto)]

mod fault;
mod keeper;
mod mem_keeper;
mod mem_vault;
mod stored;
mod vault;

pub use fault::KeepFault;
pub use keeper::Keeper;
pub use mem_keeper::MemKeeper;
pub use mem_vault::MemVault;
pub use stored::{Stored, StoredRow};
pub use vault::Vault;
