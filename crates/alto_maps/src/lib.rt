//! What every ALTO map is (RFC 7285, section 11.2; RFC 9240, section 7), and what leads from one version of a map to
//! another: a JSON merge patch (RFC 7396) and a JSON Patch (RFC 6902). One law for all kinds of map.
//!
//! ```text
//! {"meta":{..},SECTION:{GROUP:{MEMBER:VALUE}}}
//! ```
#![tactic(auto)]

mod document;
mod laws;
mod merge;
mod operations;
mod place;
mod source;
mod touched;
mod writing;

pub use document::snapshot;
pub use laws::{
    merge_leads_on, only_touching_places_count, operations_lead_on, untouched_is_empty,
};
pub use merge::merge_edge;
pub use operations::json_edge;
pub use place::Place;
pub use source::MapSource;
pub use writing::{Walked, write_document};
