//! What a client may ask of the costs between addresses, and the answer (RFC 7285, section 11.5; RFC 8189,
//! section 4.2).
//!
//! ```text
//! {"cost-type":{"cost-mode":"numerical","cost-metric":"routingcost"},
//!  "endpoints":{"srcs":["ipv4:192.0.2.9"],"dsts":["ipv4:203.0.113.5","ipv6:2001:db8::1"]}}
//!
//! {"endpoint-cost-map":{"ipv4:192.0.2.9":{"ipv4:203.0.113.5":7}},
//!  "meta":{"cost-type":{"cost-metric":"routingcost","cost-mode":"numerical"}}}
//! ```
#![tactic(auto)]

mod addrs;
mod ask;
mod costs;
mod endpoint;
mod laws;
mod ordered;
mod text;

pub use ask::{EndAsk, read_end_ask};
pub use costs::endpoint_cost_text;
pub use laws::body_asks_once;
