//! Stores in database files, as a vault: it opens, closes and counts, and tells nothing of what a file holds.
#![tactic(auto)]

mod file_keeper;
mod file_vault;

pub use file_keeper::FileKeeper;
pub use file_vault::FileVault;
