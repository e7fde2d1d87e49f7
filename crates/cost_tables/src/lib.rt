//! The costs of a version, kept by source beside its rows: a request looks up its pairs in a source's costs, which lie
//! together, and searches no rows.
//!
//! ```text
//! rows ── CostTables::of ──▶ CostTables ── after(rows, writes) ──▶ the next ones: of each metric the costs from all
//!                                                                   sources that the writes left are shared
//! CostTables ── costs_from(net, metric, source) ──▶ each destination with its cost
//! CostTables ── costs_between(net, metric, sources, destinations) ──▶ by source a cost for each destination, if it has
//!                                                                    one
//! ```
#![tactic(auto)]

mod between;
mod costs_between;
mod costs_from;
mod destinations;
mod from_source;
mod heads;
mod numbers;
mod overwriting;
mod pid_text;
mod places;
mod sources;
mod table;
mod tables;

pub use between::CostsBetween;
pub use costs_from::CostsFrom;
pub use pid_text::PidText;
pub use tables::CostTables;
