use alto_edits::Edit;
use alto_names::ImportId;
use std::marker::Model;

/// An import that asks to be accepted.
#[derive(Debug, Drop)]
pub struct Command {
    /// The id by which it is known.
    pub id: ImportId,
    /// The SHA-256 digest of its body.
    pub digest: [u8; 32],
    /// Its edits, in order.
    pub edits: Vec<Edit>,
}

impl Model for Command {
    ghost use Rattle.alto_book.specs.Import.{Import};

    ghost Value = { Import };

    ghost view = { λ command. record { id = command.id; digest = command.digest; edits = command.edits.items } };
}

/// What an accepted import is told.
#[derive(Clone, Copy, Debug, PartialEq, Eq)]
pub struct Receipt {
    /// The number of its batch, from 1.
    pub n: u64,
    /// When it was accepted, in seconds since 1970.
    pub moment: u64,
}
