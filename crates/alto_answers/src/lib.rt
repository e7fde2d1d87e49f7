//! What a request comes to at one version of a book: its route, its method, its content type, its resource, its body,
//! its effect.
//!
//! ```text
//! Request ── Routes::place ──▶ Place ── answer ──▶ Answer ──┬── Reply
//!                                         ▲                 ├── Hold, an awaited edge
//!                              Front, a version             └── Edit, an import
//! ```
#![tactic(auto)]

mod accept;
mod answering;
mod authority;
mod bytes;
mod client;
mod content;
mod directory;
mod edges;
mod edits;
mod filters;
mod form;
mod held;
mod laws;
mod lookup;
mod maps;
mod nets;
mod opening;
mod outcome;
mod queries;
mod route;
mod routes;
mod target;
mod tips;
mod types;

pub use answering::answer;
pub use client::Client;
pub use edges::edge_number;
pub use laws::a_request_has_one_answer;
pub use outcome::Answer;
pub use route::{Place, Query, Side};
pub use routes::Routes;
