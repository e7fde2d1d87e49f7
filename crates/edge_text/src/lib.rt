//! What the edges of an updates graph hold (RFC 9569, section 3), as JSON text. The patches of cost maps, which are the
//! largest, are written straight to bytes, key by key; those of other maps by their trees.
#![tactic(auto)]

mod costs;
mod merge;
mod operations;
mod pairs;
mod paths;
mod texts;

pub use texts::{merge_text, operations_text};
