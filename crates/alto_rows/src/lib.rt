//! The rows that an ALTO server keeps: keys and values in order, the writes that change them, and the one contract
//! that every store of rows meets.
//!
//! ```text
//! (Epoch, e1)  (Window, 8)  (Net metro, ·)  (Pid metro east, ·)  (Pid metro west, ·)
//! (Prefix metro east 192.0.2.0/24, ·)
//! (Metric metro routingcost, ·)       (Cost metro routingcost east west, 5)
//! (Prop metro east country, US)  (Ane metro link1, ·)  (Path metro east west, [link1])
//! (Seq metro, 2)  (Seq metro:routingcost, 1)  (Seq metro:prop, 1)
//! ```
//!
//! The rows whose keys share a kind and their first fields lie together. A [`Span`] names such rows, and [`rows_in`]
//! walks them: `Pids(metro)` are the two PIDs, `CostsFrom(metro, routingcost, east)` is the one cost.
#![tactic(auto)]

mod entities;
mod entity;
mod ids;
mod key;
mod packed;
mod pieces;
mod plain;
mod prefixes;
mod resource;
mod span;
mod store;
mod value;
mod walk;
mod within;
mod write;

pub use entities::{
    entity_reads_as_written, print_entity, print_typed_addr, read_entity, read_typed_addr,
    text_writes_one_entity, write_typed_addr,
};
pub use entity::Entity;
pub use ids::{find_resource, ids_are_unambiguous, print_resource, read_resource};
pub use key::Key;
pub use packed::PackedPrefix;
pub use plain::PlainRows;
pub use prefixes::prefixes_of;
pub use resource::{Resource, touches};
pub use span::Span;
pub use store::RowStore;
pub use value::{AneNames, Value};
pub use walk::{Walk, walk_from};
pub use within::{Within, rows_in};
pub use write::{Batch, Write};

/// A prefix in a key, with its length and family.
const _: () = prove!(size_of::<PackedPrefix>() == 24);
/// A key: its kind, and at most four names or what takes as much.
const _: () = prove!(size_of::<Key>() == 56);
/// A row: so a cost takes 88 bytes where its names are shared.
const _: () = prove!(size_of::<(Key, Value)>() == 88);
