//! The pieces of stored rows as bytes, both ways: numbers, names, prefixes and texts. A reader takes a piece from the
//! front of bytes and gives what is left; where the bytes leave the grammar, it says how many are left there.
#![tactic(auto)]

mod first;
mod fixed;
mod inside;
mod name;
mod number;
mod one;
mod prefix;
mod push;
mod stop;
mod text;

pub use first::first_byte;
pub use fixed::read_fixed;
pub use name::read_name;
pub use number::read_number;
pub use one::read_one;
pub use prefix::read_prefix;
pub use push::{push_name, push_prefix};
pub use stop::Stop;
pub use text::read_text;
