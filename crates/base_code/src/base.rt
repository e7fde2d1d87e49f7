use alto_names::ImportId;
use alto_rows::{Key, Value};
use std::marker::Model;

/// What is kept for good of a batch: its receipt.
#[derive(Debug, Drop)]
pub struct Kept {
    /// The id of its import.
    pub id: ImportId,
    /// The SHA-256 digest of the import's body.
    pub digest: [u8; 32],
    /// When it was accepted, in seconds since 1970.
    pub moment: u64,
}

impl Model for Kept {
    ghost use Rattle.base_code.specs.Bases.{KeptData};

    ghost Value = { KeptData };

    ghost view = { λ kept. record { id = kept.id; digest = kept.digest; moment = kept.moment } };
}

/// What a book begins with.
#[derive(Debug, Drop)]
pub struct Base {
    /// How many batches led to it.
    pub b: u64,
    /// Their receipts, in order.
    pub receipts: Vec<Kept>,
    /// The rows after them, in the order of their keys, without the epoch and the window.
    pub rows: Vec<(Key, Value)>,
}

impl Model for Base {
    ghost use Rattle.base_code.specs.Bases.{BaseData};

    ghost Value = { BaseData };

    ghost view = { λ base. record { b = base.b; receipts = base.receipts.items; rows = base.rows.items } };
}
