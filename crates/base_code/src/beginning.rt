ghost use Rattle.std.specs.Prelude.{◌≡◌, ◌∷◌, ◌++◌, [], ℕ, IfOk, IfErr, OnOk, MatchOption};
ghost use Rattle.base_code.specs.Bases.{IsBase};
ghost use Rattle.base_code.specs.Faults.{AreBeginning, AreOfBase, IsBeginning, beginning_pieces};
ghost use Rattle.base_code.specs.Parts.{Denies, IsFirstPiece};
ghost use Rattle.base_code.specs.Pieces.{base_pieces};

use crate::base::{Base, Kept};
use crate::part::next_part;
use crate::receipt::read_receipts;
use crate::rows::read_rows;
use alto_rows::{Key, Value};
use batch_code::Names;
use code_bytes::{Stop, read_number, read_one};
use std::alloc::Global;
use std::marker::Model;

/// What the first pieces of a base hold.
#[derive(Drop)]
pub(crate) struct Beginning {
    /// How many batches led to the base.
    b: u64,
    /// How many rows it has.
    count: u64,
    /// The first of its receipts.
    receipts: Vec<Kept>,
    /// The first of its rows.
    rows: Vec<(Key, Value)>,
}

impl Model for Beginning {
    ghost use Rattle.base_code.specs.Faults.{BeginningData};

    ghost Value = { BeginningData };

    ghost view = { λ begun. record {
      b = begun.b;
      count = begun.count;
      receipts = begun.receipts.items;
      rows = begun.rows.items;
    } };
}

impl Beginning {
    /// Reads the first piece.
    pub(crate) fn read(alloc: Global, piece: &[u8]) -> Result<Beginning, Stop>
        ensures ok { IfOk result (λ begun. IsBeginning begun × (beginning_pieces begun ≡ piece.now ∷ [])) }
        ensures stops { IfErr result (Denies (AreBeginning (piece.now ∷ []))) }
    {
        let (b, count) = read_first(piece)?;
        Ok(Beginning {
            b,
            count,
            receipts: Vec::new(alloc),
            rows: Vec::new(alloc),
        })
    }

    /// Reads the next piece.
    pub(crate) fn add(&mut self, alloc: Global, names: &mut Names, piece: &[u8]) -> Result<(), Stop>
        requires { IsBeginning self.old }
        ensures ok { OnOk result (IsBeginning self.new
            × (beginning_pieces self.new ≡ beginning_pieces self.old ++ (piece.now ∷ []))) }
        ensures stops { IfErr result (Denies (AreBeginning (beginning_pieces self.old ++ (piece.now ∷ [])))) }
    {
        let count = next_part(self.b, self.receipts.len());
        if 0 < count {
            let mut receipts = read_receipts(alloc, piece, count)?;
            self.receipts.append(&mut receipts)?;
            return Ok(());
        }
        let count = next_part(self.count, self.rows.len());
        if count == 0 {
            return Err(Stop::Left(0));
        }
        read_rows(alloc, names, &mut self.rows, piece, count)
    }

    /// The base, if these are all its receipts and rows.
    pub(crate) fn base(self) -> Option<Base>
        requires { IsBeginning self }
        ensures { MatchOption result (¬ (AreOfBase (beginning_pieces self)))
            (λ base. IsBase base × (beginning_pieces self ≡ base_pieces base)) }
    {
        if (self.receipts.len() as u64) < self.b {
            return None;
        }
        if (self.rows.len() as u64) < self.count {
            return None;
        }
        Some(Base {
            b: self.b,
            receipts: self.receipts,
            rows: self.rows,
        })
    }
}

/// Reads the numbers of batches and of rows in the first piece.
fn read_first(piece: &[u8]) -> Result<(u64, u64), Stop>
    ensures ok { IfOk result (λ x. IsFirstPiece piece.now x.0 x.1) }
    ensures stops { IfErr result (Denies ((b : ℕ) × (count : ℕ) × IsFirstPiece piece.now b count)) }
{
    let rest = read_one(piece, 0x43)?;
    let rest = read_one(rest, 0x01)?;
    let (b, rest) = read_number(rest, 8, 1, 0xffff_ffff_ffff_ffff)?;
    let (count, rest) = read_number(rest, 4, 0, 400_000)?;
    if !rest.is_empty() {
        return Err(Stop::Left(rest.len()));
    }
    Ok((b, count))
}
