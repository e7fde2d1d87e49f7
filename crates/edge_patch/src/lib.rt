//! What the edges of an updates graph hold (RFC 9569, section 3): documents, and what leads from one version of a
//! document to a later one as a JSON merge patch (RFC 7396) or as a JSON Patch (RFC 6902).
//!
//! ```text
//! {"meta":{"vtag":{"tag":"e1-4"}},"network-map":{"east":{"ipv4":null},"west":{"ipv4":["0.0.0.0/0","192.0.2.0/24"]}}}
//!
//! [{"op":"replace","path":"/meta/vtag/tag","value":"e1-4"},
//!  {"op":"remove","path":"/network-map/east/ipv4"},
//!  {"op":"add","path":"/network-map/west/ipv4","value":["0.0.0.0/0","192.0.2.0/24"]}]
//! ```
#![tactic(auto)]

mod documents;
mod form;
mod laws;
mod merge;
mod operations;

pub use documents::document_text;
pub use form::PatchForm;
pub use laws::{only_touching_keys_count, steps_lead_on, untouched_is_empty};
pub use merge::merge_edge;
pub use operations::json_edge;
