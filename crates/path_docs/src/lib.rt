//! Path vectors (RFC 9275): the abstract network elements, ANEs, on the paths between PIDs, and their properties.
//!
//! An answer has two parts in one body: a cost map whose costs are lists of ANEs, and the property map of these ANEs.
//!
//! ```text
//! {"cost-map":{"east":{"west":["core"]}},"meta":{..,"vtag":{"resource-id":"metro:path.costmap","tag":"e1-5"}}}
//! {"meta":{"dependent-vtags":[..]},"property-map":{".ane:core":{"max-reservable-bandwidth":1000}}}
//! ```
#![tactic(auto)]

mod answer;
mod ask;
mod body;
mod costs;
mod fields;
mod found;
mod meta;
mod picks;
mod properties;

pub use answer::path_vector;
pub use ask::{PathAsk, read_path_ask};
pub use body::multipart;
