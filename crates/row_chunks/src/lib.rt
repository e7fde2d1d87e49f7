//! Rows that versions share: a store of rows in chunks of 1 to 32, of chunks in pages of 1 to 16, and of pages in
//! volumes of 1 to 16. A version that follows another makes anew only the chunks, pages and volumes that a write
//! touches, and shares the rest.
//!
//! ```text
//! first key    Epoch                                         Cost metro routingcost m k
//! rows before  0                                             494
//! page         |                                             |
//! first key    Epoch           Cost metro routingcost a k    Cost metro routingcost m k    Prop metro pid:k country
//! rows before  0               32                            0                             27
//! chunk        [32 rows]  ..   [30 rows]  ..                 [27 rows]  ..                 [19 rows]
//! ```
//!
//! First keys stand beside the pointers, so a search follows one pointer a level, and what is passed over isn't read.
#![tactic(auto)]

mod block;
mod blocks;
mod builder;
mod change;
mod changes;
mod chunk;
mod copies;
mod cut;
mod merge;
mod pieces;
mod shared;
mod slot;
mod store;

pub use store::Chunks;
