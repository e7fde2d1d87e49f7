//! Addresses and prefixes of IPv4 and IPv6 (RFC 4291): read from text, written in one form each (RFC 5952), and
//! compared bit by bit.
#![tactic(auto)]

mod addr;
mod bits;
mod fault;
mod front;
mod laws;
mod prefix;
mod reading;
mod token;

pub use addr::{Addr, print_addr, write_addr};
pub use fault::AddrFault;
pub use laws::{
    address_reads_as_written, inner_addresses_are_outer, longest_run_is_elided, order_is_by_family,
    prefix_reads_as_written, text_writes_one_address, text_writes_one_prefix,
};
pub use prefix::{Prefix, holds, inside, print_prefix};
pub use reading::{read_addr, read_prefix};
