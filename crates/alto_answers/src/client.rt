use crate::routes::Routes;
use alto_addr::Addr;

/// Whom a connection serves: the routes of its side, and its address, where that is known. A contract sees the side and
/// the address.
#[derive(Drop)]
pub struct Client {
    /// The routes of the side that it asks at.
    pub routes: Routes,
    /// Its address: what endpoint costs are told for where a request names no sources or no destinations
    /// (RFC 7285, section 11.5.1.3).
    pub peer: Option<Addr>,
}
