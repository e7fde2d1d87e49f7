//! Versions of the book, as readers share them: the rows after some number of batches, the updates graph and the text
//! of each declared resource, the range table of each declared network, and the costs of each declared metric.
//!
//! ```text
//! Front { n, rows, graphs, tables, costs, texts } ── with(batch) ──▶ the next one: what the batch left is shared
//! Course { n, rows, graphs } ── with(batch) ── with(batch) ── .. ── into_front ──▶ Front: tables, costs and texts are
//! made once
//! ```
#![tactic(auto)]

mod course;
mod followed;
mod front;
mod graphs;
mod number_texts;
mod resources;
mod tables;
mod texts;

pub use course::Course;
pub use followed::Followed;
pub use front::Front;
