//! The property map of a network (RFC 9240, section 8), as JSON: the entities that have properties, each with these,
//! under the version tag of the network map that they depend on.
//!
//! ```text
//! {"meta":{"dependent-vtags":[{"resource-id":"metro","tag":"e1-3"}]},
//!  "property-map":{"ipv4:192.0.0.0/16":{"region":"north"},"metro.pid:east":{"rank":2}}}
//! ```
#![tactic(auto)]

mod ask;
mod document;
mod entities;
mod laws;
mod places;
mod properties;
mod source;
mod writing;

pub use ask::{PropAsk, read_prop_ask};
pub use document::{prop_doc, prop_text};
pub use laws::prop_maps_differ_at_places;
pub use places::prop_places;
pub use properties::value_tree;
pub use source::PropMap;
