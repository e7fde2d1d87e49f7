//! A drill, which shows on any machine that each edge of an updates graph leads on: it accepts a book of batches that a
//! number makes, reads each edge from 0 and makes each other one in both forms of patch, applies it, and counts what
//! differs.
//!
//! ```text
//! number ── draws ──▶ choice ── edits ──▶ import ── Desk::edit ──▶ Front ── Graph::status, span ──▶ edges
//!                                                                                   each in both forms │
//! batches 40 edges 57 failed 0        ◀── count what differs ── apply ── read back ── text ◀───────────┤
//! map 1d1785e1948f73c54a7f29232aaf..  ◀── SHA-256 of all bodies ───────────────────────────────────────╯
//! ```
#![tactic(auto)]

mod choice;
mod desk;
mod draws;
mod drilled;
mod drilling;
mod edges;
mod edits;
mod imports;
mod names;
mod patches;
mod reading;
mod trials;

pub use drilled::Drilled;
pub use drilling::drill;
