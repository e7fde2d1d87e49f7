//! The stored pieces of a book's base, both ways: a first piece, the receipts of the batches before the base, and its
//! rows, 4,096 in a piece.
//!
//! ```text
//! 43 01 | 0000000000000001 | 00000003                     the base behind one batch, of three rows
//! 44 01 | 0001 | receipts                                  one receipt
//!    02 "i1" | digest | 0000000000000064                   of the import i1, accepted at 100
//! 45 01 | 0003 | writes                                    three rows, as the writes that put them
//! ```
//!
//! Each base has one list of pieces. A reader that is given others says which is the first that isn't in its place.
#![tactic(auto)]

mod base;
mod beginning;
mod decoding;
mod encoding;
mod fault;
mod laws;
mod part;
mod receipt;
mod rows;

pub use base::{Base, Kept};
pub use decoding::decode_base;
pub use encoding::encode_base;
pub use fault::BaseFault;
pub use laws::{
    a_written_base_is_read_again, base_of_i1, bases_with_one_spelling_are_one,
    first_pieces_are_in_their_places, one_piece_is_bad, pieces_in_their_places_begin_bases,
};
