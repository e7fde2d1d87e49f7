//! The updates graph of one resource (RFC 9569, section 3): the numbers that are kept, the rows at each, and the keys
//! that lead from one to another.
//!
//! ```text
//!   0 ─────▶ any kept number              first                        last
//!            (a snapshot)                   ●──▶●──▶●──▶ ··· ──▶●──▶●──▶●──▶ ○ awaited
//!                                           each step: the keys that were written
//!
//!   Edges that lead further, by 2, 4, 8 or 16 from a number that it divides, have the keys of their halves, merged:
//!   few of them when the edge ends, and more when they are asked for.
//!
//!         8 ─▶ 9 ─▶ 10 ─▶ 11 ─▶ 12 ─▶ 13 ─▶ 14 ─▶ 15 ─▶ 16
//!         ╰────────▶╰──────────▶╰──────────▶╰──────────▶
//!         ╰────────────────────▶╰──────────────────────▶
//!         ╰────────────────────────────────────────────▶
//! ```
#![tactic(auto)]

mod graph;
mod keys;
mod laws;
mod status;
mod step;

pub use graph::Graph;
pub use laws::{
    a_push_goes_on, each_edge_has_one_status, kept_shapes_are_here, kept_steps_are_here,
    recommended_is_here_or_awaited, recommended_is_longest, rows_are_those_of_the_push,
    span_is_of_the_pushes,
};
pub use status::EdgeStatus;
