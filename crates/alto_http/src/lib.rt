//! The edge where bytes become HTTP/1.1 requests (RFC 9112), and the bytes of replies go out.
//!
//! ```text
//! Link ── read ──▶ Intake ── read_request ──▶ Request
//! Link ◀─ write ───────────── write_all ◀──── reply bytes
//! ```
#![tactic(auto)]

mod fault;
mod fields;
mod head;
mod intake;
mod laws;
mod link;
mod mem_link;
mod read;
mod receive;
mod request;
mod scan;
mod write;

pub use fault::HeadFault;
pub use fields::is_decimal;
pub use intake::Intake;
pub use laws::{
    head_is_read_whole, next_is_one, refusal_is_by_a_check, request_leaves_the_rest,
    request_needs_no_more, split_is_one,
};
pub use link::{Failed, Link};
pub use mem_link::MemLink;
pub use read::read_request;
pub use request::{Request, Verb};
pub use write::{WriteFault, write_all};
