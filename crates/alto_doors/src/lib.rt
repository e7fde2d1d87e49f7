//! The doors that connections come through, and the worker that serves a door to its end.
//!
//! ```text
//! Doors ── open ──▶ Door ── accept ──▶ a link ── serve_link ──▶ Served ── give_back ──▶ Door ── close ──▶ Doors
//! ```
//!
//! A door takes a link back only as a `Served`, which `serve_link` alone makes. Doors in memory (`MemDoors`) are for
//! tests; those over TCP (`TcpDoors`) tell nothing of what comes.
#![tactic(auto)]

mod counts;
mod door;
mod doors;
mod fault;
mod key;
mod mem_door;
mod mem_doors;
mod state;
mod tcp_door;
mod tcp_doors;
mod tcp_link;
mod threads;
mod waiting;
mod worker;

pub use alto_http::Failed;
pub use alto_serve::{Served, Side};
pub use counts::DoorCounts;
pub use door::Door;
pub use doors::Doors;
pub use fault::DoorFault;
pub use mem_door::MemDoor;
pub use mem_doors::MemDoors;
pub use state::DoorState;
pub use tcp_door::TcpDoor;
pub use tcp_doors::TcpDoors;
pub use tcp_link::{IDLE_SECONDS, TcpLink};
pub use threads::tcp_doors_cross_threads;
pub use worker::serve_door;
