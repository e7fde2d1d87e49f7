//! The property map of a network cut to what a client asks (RFC 9240, section 8): some entities, and of each the asked
//! properties that it has. A block takes each property from the longest block around it that has it, an address also
//! has its PID, and a PID entity has what its own rows say.
//!
//! ```text
//! rows   ipv4:192.0.0.0/16 region north      ipv4:192.0.2.0/24 region lab
//! ask    {"entities":["ipv4:192.0.2.9"],"properties":["region","metro.pid"]}
//! map    {"ipv4:192.0.2.9":{"metro.pid":"east","region":"lab"}}
//! ```
#![tactic(auto)]

mod asked;
mod cut;
mod filter;
mod inherit;
mod laws;
mod values;

pub use filter::filter_prop;
pub use laws::inheriting_is_from_the_longest_block;
