//! The stored bytes of batches, both ways, and of the row before them.
//!
//! ```text
//! 41 01 | 02 "e1" | 00000008                                              the epoch e1 and the window 8
//! 42 01 | 02 "i1" | digest | 0000000000000064 | 00000003 | writes         the batch of the import i1
//!    03 | 05 "metro" | 01                                                 metro is declared
//!    0c | 01 05 "metro" | 02 0000000000000001                             its network map is at 1
//!    0c | 03 05 "metro" | 02 0000000000000001                             its property map is at 1
//! ```
//!
//! Each value has one spelling. A reader that is given other bytes says how far they begin one.
#![tactic(auto)]

mod batch;
mod decoding;
mod encoding;
mod fault;
mod key;
mod kinds;
mod laws;
mod names;
mod value;
mod write;

pub use decoding::{decode, decode_head};
pub use encoding::{encode, encode_head, push_row};
pub use fault::CodeFault;
pub use laws::{
    a_written_batch_is_read_again, a_written_head_is_read_again, batches_with_one_spelling_are_one,
    heads_with_one_spelling_are_one, row_of_i1, row_zero_of_e1, spellings_are_in_the_grammar,
    the_grammar_has_no_text_but_spellings,
};
pub use names::Names;
pub use write::writes_of;
