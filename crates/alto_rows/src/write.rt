use crate::key::Key;
use crate::value::Value;
use alto_names::ImportId;
use std::marker::Model;

/// One change of the rows: a value that is put, or, where there is none, a deletion.
#[derive(Debug, PartialEq, Eq, Drop)]
pub struct Write {
    /// The row's key.
    pub key: Key,
    /// The value that the row then has.
    pub value: Option<Value>,
}

/// An accepted batch.
#[derive(Debug, Drop)]
pub struct Batch {
    /// The id of its import.
    pub id: ImportId,
    /// The SHA-256 digest of the import's body.
    pub digest: [u8; 32],
    /// When it was accepted, in seconds since 1970.
    pub moment: u64,
    /// Its writes, those of versions last.
    pub writes: Vec<Write>,
}

impl Model for Batch {
    ghost use Rattle.alto_rows.specs.Accepted.{Accepted};

    ghost Value = { Accepted };

    ghost view = { λ batch.
        record { id = batch.id; digest = batch.digest; moment = batch.moment; writes = batch.writes.items } };
}
