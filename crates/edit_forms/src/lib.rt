//! Imports as operators send them, CSV (RFC 4180) or JSON (RFC 8259), read into edits, with the first fault by its row
//! and column. Both have the same six columns:
//!
//! ```text
//! pid-add,metro,east,,,                     {"edits":[["pid-add","metro","east"]]}
//! ```
//!
//! Behind the operation and its network stand up to four values:
//!
//! | op | a | b | c | d |
//! |---|---|---|---|---|
//! | `net-add`, `net-drop` | | | | |
//! | `pid-add`, `pid-drop` | PID | | | |
//! | `prefix-put`, `prefix-del` | PID | prefix | | |
//! | `metric-add`, `metric-drop` | metric | | | |
//! | `cost-put` | metric | source | destination | cost |
//! | `cost-del` | metric | source | destination | |
//! | `prop-put` | entity | name | `t` or `n` | text or number |
//! | `prop-del` | entity | name | | |
//! | `ane-add` | ANE | | | |
//! | `ane-set` | ANE | `max-reservable-bandwidth` | number | |
//! | `path-put` | source | destination | ANEs with one space between | |
//! | `path-del` | source | destination | | |
#![tactic(auto)]

mod amounts;
mod anes;
mod before;
mod columns;
mod csv_body;
mod edits;
mod fault;
mod form;
mod json_body;
mod laws;
mod operation;
mod records;
mod table;
mod value_kind;
mod values;

pub use csv_body::read_csv;
pub use fault::FormFault;
pub use form::Form;
pub use json_body::read_json;
pub use laws::a_body_reads_in_one_way;
