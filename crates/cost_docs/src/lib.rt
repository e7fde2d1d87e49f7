//! The cost map of a network and a metric (RFC 7285, section 11.2.3), whole and as ranks, as JSON.
//!
//! ```text
//! {"cost-map":{"east":{"west":7}},
//!  "meta":{"cost-type":{"cost-metric":"routingcost","cost-mode":"numerical"},
//!          "dependent-vtags":[{"resource-id":"metro","tag":"e1-3"}]}}
//! ```
#![tactic(auto)]

mod costs;
mod document;
mod groups;
mod kept;
mod laws;
mod meta;
mod names;
mod places;
mod ranks;
mod source;
mod writing;

pub use document::{cost_doc, cost_text, ordinal_doc};
pub use kept::CostGroups;
pub use laws::cost_maps_differ_at_places;
pub use places::cost_places;
pub use ranks::Ranks;
pub use source::CostMap;
