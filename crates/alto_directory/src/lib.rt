//! The information resource directory of an ALTO server (RFC 7285, section 9.2): what the server has, and where, as
//! JSON.
//!
//! ```text
//! {"meta":{"cost-types":{"num-routingcost":{"cost-metric":"routingcost","cost-mode":"numerical"},..},
//!          "default-alto-network-map":"metro"},
//!  "resources":{"metro":{"media-type":"application/alto-networkmap+json","uri":"/maps/metro"},
//!               "metro:cost:routingcost":{..},"metro:costs":{..},..}}
//! ```
//!
//! A walk over the rows gathers what the directory tells of each network (`network`); of that each entry is one
//! function (`entries`), beside a definition of the same name in `specs/Entries.antt`.
#![tactic(auto)]

mod capabilities;
mod cost_types;
mod document;
mod domain;
mod entries;
mod entry;
mod ids;
mod laws;
mod lists;
mod media_type;
mod names;
mod network;

pub use document::directory;
pub use laws::{addresses_have_pids, nothing_without_networks};
