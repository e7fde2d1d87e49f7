//! What a client may ask of costs (RFC 7285, section 11.3.2; RFC 8189): cost types, constraints and PIDs, and the cost
//! map cut to that.
//!
//! ```text
//! {"cost-type":{"cost-mode":"numerical","cost-metric":"routingcost"},
//!  "constraints":["le 10"],"pids":{"srcs":["east"],"dsts":[]}}
//! {"multi-cost-types":[{"cost-mode":"numerical","cost-metric":"routingcost"},..],
//!  "or-constraints":[["[0] le 10"],["[1] gt 1.5"]]}
//! ```
#![tactic(auto)]

mod ask;
mod column_between;
mod columns;
mod constraints;
mod destinations;
mod fields;
mod filter;
mod groups;
mod names;
mod pairs;
mod pairs_between;
mod pairs_from;
mod picks;
mod starts;
mod text;
mod types;
mod writing;

pub use ask::{CostAsk, read_cost_ask};
pub use constraints::{Tests, read_constraints};
pub use fields::{items_at, nested, object_in};
pub use filter::filter_cost_text;
pub use groups::push_group;
pub use pairs::Pairs;
pub use pairs_between::PairsBetween;
pub use pairs_from::PairsFrom;
pub use picks::PidPick;
pub use starts::MemberStarts;
pub use types::{AskedTypes, CostType, read_types};
pub use writing::write_types;
