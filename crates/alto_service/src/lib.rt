//! The command `serve`: a store served to connections. Each side, that of clients and that of the operator, has as many
//! doors as workers; each worker has a seat at one hub, and all workers run at once.
//!
//! ```text
//! vault ── open_book ──▶ Desk ── Hub::open ──▶ seats ─┐
//!                              Doors::open ──▶ doors ─┴─▶ workers ── serve_door ──▶ their ends ── close
//! ```
#![tactic(auto)]

mod doors;
mod serving;
mod worker;

pub use serving::{Plan, serve};
