//! Connections: requests are read, each is answered at the version that an office has then, and the replies are
//! written.
//!
//! ```text
//! Link ── read_request ──▶ Request ── answer ──▶ Answer ── settled, conclude ──▶ Reply ── write_all ──▶ Link
//!                                       ▲                      │
//!                        Office: a look at a version    a wait, an import
//! ```
#![tactic(auto)]

mod clock;
mod end;
mod office;
mod refuse;
mod serve;
mod served;
mod solo;
mod turns;

pub use alto_answers::{Answer, Client, Place, Routes, Side, answer, edge_number};
pub use alto_replies::{Reply, reply_bytes};
pub use clock::{Clock, FixedClock};
pub use end::End;
pub use office::{Look, Looks, Office};
pub use serve::serve_conn;
pub use served::{Served, serve_link};
pub use solo::Solo;
