//! The bodies of asks: objects of JSON, their fields, and what is told of those that are at fault (RFC 7285, section
//! 8.5.2).
#![tactic(auto)]

mod asks;
mod fault;

pub use asks::{
    optional_items, optional_text, read_ask, required_items, required_text, text_in, texts_of,
};
pub use fault::{AskCode, AskFault};
