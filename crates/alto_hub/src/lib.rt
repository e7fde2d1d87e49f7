//! One desk behind a lock, the versions that it publishes, and seats, from which connections are served in any number
//! of threads.
//!
//! ```text
//! Seat ── edit ──▶ lock ──▶ Desk::edit ──▶ publish ──▶ version ◀── Seat::front ── no lock, no wait
//!   │                                         │
//!   └── wait ──▶ Bell ◀────────── ring ───────┘
//! ```
//!
//! What all threads agree on is the history of the hub: the imports that were answered since it was opened, in one
//! order. It exists in proofs alone. A published version has a mark of how far it was reached, and so has the desk
//! under its lock.
#![tactic(auto)]

mod bell;
mod hub;
mod locked;
mod mark;
mod open;
mod place;
mod published;
mod seat;
mod submission;
mod thread_bell;
mod view;
mod visitor;

pub use bell::{Bell, IdleBell};
pub use hub::Hub;
pub use mark::{Naming, NewHistory};
pub use place::Place;
pub use seat::Seat;
pub use thread_bell::ThreadBell;
