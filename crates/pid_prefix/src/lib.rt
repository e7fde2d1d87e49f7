//! Which PID an address belongs to: that with the longest prefix that holds it (RFC 7285, section 11.2.1).
//!
//! `find_by_scan` reads each prefix. `RangeTable` cuts each family's addresses where the answer changes, and halves:
//!
//! ```text
//! prefixes    |--------- a ---------|        |-- c --|
//!                  |--- b ---|
//! ranges      | a  |    b    |   a  |  none  |   c   | none ..
//! ```
#![tactic(auto)]

mod block;
mod blocks;
mod family;
mod index;
mod laws;
mod number;
mod pids;
mod range;
mod ranges;
mod scan;
mod sought;
mod steps;
mod sweep;
mod table;

pub use laws::{
    a_table_crosses_threads, longest_prefix_is_longest, one_pid_is_longest,
    sixteen_steps_are_enough,
};
pub use scan::find_by_scan;
pub use steps::Steps;
pub use table::RangeTable;
