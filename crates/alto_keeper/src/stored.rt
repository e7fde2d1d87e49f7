ghost use Rattle.std.specs.Prelude.{◌≡◌, ◌&&◌, int_le, pos, not, filter, IfOk, OnOk, OnErr};
ghost use Rattle.alto_keeper.specs.Stored.{nothing, with_row, is_taken_in};

use std::alloc::{AllocError, Global};
use std::marker::Model;

/// A row of records: its number and its bytes.
#[derive(Debug, Drop)]
pub struct StoredRow {
    pub n: i64,
    pub bytes: Vec<u8>,
}

impl Model for StoredRow {
    ghost use Rattle.alto_keeper.specs.Stored.{RowData};

    ghost Value = { RowData };

    ghost view = { λ row. record { n = row.n; bytes = row.bytes.items } };
}

impl StoredRow {
    /// A copy.
    pub fn try_clone(&self, alloc: Global) -> Result<StoredRow, AllocError>
        ensures { IfOk result (λ copy. copy ≡ self.now) }
    {
        Ok(StoredRow {
            n: self.n,
            bytes: self.bytes.to_vec(alloc)?,
        })
    }
}

/// All that is kept: the pieces of a base, numbered from 0, and the rows behind it, whose numbers rise.
#[derive(Debug, Drop)]
pub struct Stored {
    pub base: Vec<StoredRow>,
    pub rows: Vec<StoredRow>,
}

impl Model for Stored {
    ghost use Rattle.alto_keeper.specs.Stored.{StoredData};

    ghost Value = { StoredData };

    ghost view = { λ stored. record { base = stored.base.items; rows = stored.rows.items } };
}

impl Stored {
    /// No records.
    pub fn empty(alloc: Global) -> Stored
        ensures { result ≡ nothing }
    {
        Stored {
            base: Vec::new(alloc),
            rows: Vec::new(alloc),
        }
    }

    /// A copy.
    pub fn try_clone(&self, alloc: Global) -> Result<Stored, AllocError>
        ensures { IfOk result (λ copy. copy ≡ self.now) }
    {
        Ok(Stored {
            base: copies(alloc, &self.base)?,
            rows: copies(alloc, &self.rows)?,
        })
    }

    /// Adds a row behind the others. A refusal leaves all.
    pub(crate) fn add(&mut self, row: StoredRow) -> Result<(), AllocError>
        ensures added { OnOk result (self.new ≡ with_row row.n row.bytes self.old) }
        ensures refused { OnErr result (self.new ≡ self.old) }
    {
        self.rows.push(row)?;
        Ok(())
    }

    /// Puts another base in place of the one before, which takes in the rows with the numbers 1 to `upto`.
    #[tactic(auto, using(std::proofs::lemmas::List::Elements::filter_from_retain))]
    pub(crate) fn rebase(&mut self, base: Vec<StoredRow>, upto: i64)
        ensures { self.new
            ≡ record { base = base.items; rows = filter (λ row. not (is_taken_in upto row)) self.old.rows } }
    {
        self.base = base;
        self.rows.retain(move |row| !is_taken_in(upto, row.n));
    }
}

/// Whether a base that takes in the rows up to a number takes in this one.
fn is_taken_in(upto: i64, n: i64) -> bool
    ensures { result ≡ (int_le (pos 1) n && int_le n upto) }
{
    1 <= n && n <= upto
}

/// Copies of rows.
fn copies(alloc: Global, rows: &[StoredRow]) -> Result<Vec<StoredRow>, AllocError>
    ensures { IfOk result (λ copies. copies.items ≡ rows.now) }
{
    let mut copies = Vec::with_capacity(alloc, rows.len())?;
    for row in rows {
        copies.push(row.try_clone(alloc)?)?;
    }
    Ok(copies)
}
