//! The names of an ALTO server: of networks, PIDs, cost metrics, properties, abstract network elements, imports and
//! epochs.
//!
//! A name is read from bytes and is from then on known to be one: its length and its alphabet are those of
//! its kind. All kinds are one type, `Label`, with the kind as its parameter. Clones of a name share its text.
#![tactic(auto)]

mod kind;
mod label;

pub use kind::{AneKind, EpochKind, ImportKind, Kind, MetricKind, NetKind, PidKind, PropKind};
pub use label::{Label, NameFault};

/// The name of a network: 1 to 24 letters, digits, `-` and `_`.
pub type NetName = Label<NetKind>;

/// The name of a PID, a group of endpoints (RFC 7285, section 10.1): 1 to 64 letters, digits, `-`, `:`, `@` and `_`.
pub type PidName = Label<PidKind>;

/// The name of a cost metric (RFC 7285, section 10.6): 1 to 32 letters, digits, `-`, `:` and `_`.
pub type Metric = Label<MetricKind>;

/// The name of a property of entities (RFC 9240): 1 to 32 letters, digits, `-`, `:` and `_`.
pub type PropName = Label<PropKind>;

/// The name of an ANE, an abstract network element (RFC 9275): 1 to 32 letters, digits, `-`, `:`, `@` and `_`.
pub type AneName = Label<AneKind>;

/// The id by which an import is known: 1 to 64 visible characters of US-ASCII.
pub type ImportId = Label<ImportKind>;

/// The epoch of a book, with which its tags begin: 1 to 20 letters and digits.
pub type Epoch = Label<EpochKind>;

// Every name is one pointer.
const _: () = prove!(size_of::<NetName>() == 8);

const _: () = prove!(size_of::<PidName>() == 8);

const _: () = prove!(size_of::<Metric>() == 8);

const _: () = prove!(size_of::<PropName>() == 8);

const _: () = prove!(size_of::<AneName>() == 8);

const _: () = prove!(size_of::<ImportId>() == 8);

const _: () = prove!(size_of::<Epoch>() == 8);
