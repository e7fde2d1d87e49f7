//! The commands of the program, over any vault, console and clock: `init`, `pipe`, `import`, `show` and `trim`. Each
//! prints what comes of it on the console, and gives the status that the program ends with.
//!
//! | status | comes where |
//! |---|---|
//! | 0 | it is done; `pipe`'s input ended between requests, or a request closed |
//! | 1 | out of memory: it is done whole or not at all, whatever was printed |
//! | 3 | the vault counted a fault, its own or that of a keeper that was closed, and the command itself met it |
//! | 4, 5 | a read or a write of the console failed |
//! | 7 | an edit breaks a rule |
//! | 8 | no declared resource has the id |
//! | 9 | the records at the store are no book's |
//! | 10 | `init` of a store where something is held |
//! | 11 | the body of an import doesn't read |
//! | 12 | the import's id is that of another body |
//! | 13 | the body of an import is too large |
//! | 14, 15 | `pipe`'s input ended inside a request, or brought as many requests as a connection may |
#![tactic(auto)]

mod beginning;
mod body;
mod fault;
mod importing;
mod piping;
mod saying;
mod showing;
mod store;
mod trimming;

pub use alto_serve::{Clock, FixedClock};
pub use beginning::init;
pub use edit_forms::Form;
pub use importing::import;
pub use piping::pipe;
pub use saying::say;
pub use showing::show;
pub use store::{open_book, say_unopened};
pub use trimming::trim;
