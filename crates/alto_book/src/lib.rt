//! The book of accepted batches: what an import comes to, and what holds of every book.
//!
//! The definitions are in `specs/`: a book and its rows (`Book`), what accepting an import makes of it (`Acceptance`),
//! which books can come about (`Legal`), and the numbers that batches give resources (`Numbers`). The laws about them
//! are contracts of functions that do nothing.
#![tactic(auto)]

mod command;
mod fault;
mod laws;
mod number_laws;
mod trim_laws;
mod walk_laws;

pub use command::{Command, Receipt};
pub use fault::EditFault;
pub use laws::{
    acceptance_extends, acceptance_is_refused_whole, acceptance_keeps_legal, legal_rows_are_good,
    legal_writes_fit, opening_is_legal, receipt_is_kept, trim_keeps_the_book, versions_stay_small,
};
pub use number_laws::{
    each_number_is_given_once, graphs_tell_the_book, no_number_twice, numbers_differ_by_keys,
    numbers_stay, pushes_are_the_numbers, touched_resources_get_numbers, trim_keeps_numbers,
    untouched_maps_stay,
};
pub use trim_laws::trim_keeps_bodies;
pub use walk_laws::{bodies_stay, earlier_books_are_legal, walks_lead_on};
