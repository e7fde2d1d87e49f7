//! Text that is put together from short pieces.
#![tactic(auto)]

mod buffer;

pub use buffer::TextBuffer;
