//! The text of a map's document (RFC 8259, with no space) in pieces: what stands before the groups, the text of each
//! group as a member, and what stands behind them. Where a map changes, the pieces of the groups that it leaves are
//! shared.
//!
//! ```text
//! {"meta":{..},"network-map":{   "east":{..}  ,  "west":{..}   }}
//! ──────── beginning ─────────   ── group ──     ── group ──   ending
//! ```
#![tactic(auto)]

mod frame;
mod grouped;
mod laws;
mod parts;
mod piece;
mod pieces;
mod renewing;
mod text;
mod touched;

pub use grouped::Grouped;
pub use laws::{pieces_make_the_document, untouched_pieces_stay};
pub use parts::Parts;
pub use pieces::Pieces;
pub use text::{push_comma, push_name};
