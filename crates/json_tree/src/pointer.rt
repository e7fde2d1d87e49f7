//! JSON pointers (RFC 6901) through objects alone: member names, from the root down.

mod fault;
mod printing;
mod reading;

pub use fault::PointerFault;
pub use printing::{pointer_string, print_pointer};
pub use reading::read_pointer;
