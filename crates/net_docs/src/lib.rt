//! Network maps (RFC 7285, section 11.2.1): the PIDs of a network with their prefixes, under the version tag of the
//! rows that they are read from.
//!
//! ```text
//! {"meta":{"vtag":{"resource-id":"metro","tag":"e1-3"}},
//!  "network-map":{"east":{"ipv4":["192.0.2.0/24"],"ipv6":["2001:db8::/32"]},"west":{}}}
//! ```
#![tactic(auto)]

mod ask;
mod document;
mod filter;
mod laws;
mod pids;
mod places;
mod prefixes;
mod source;
mod tags;
mod version;
mod writing;

pub use ask::{Family, NetAsk, Pick, PidNames, read_net_ask};
pub use document::{net_doc, net_text, version_tag};
pub use filter::filter_net;
pub use laws::{map_is_of_its_keys, maps_differ_at_places};
pub use places::net_places;
pub use source::NetMap;
pub use tags::{dependent_tags, write_dependent_tags, write_text};
pub use version::{epoch, tag};
