ghost use Rattle.std.specs.Prelude.{◌≡◌, ◌<◌, ◌≤◌, ◌++◌, All, IfOk, OnOk, length, map, vec_items};
ghost use Rattle.alto_rows.specs.Rows.{AreSorted};
ghost use Rattle.batch_code.specs.Storable.{IsStored};
ghost use Rattle.base_code.specs.Bases.{AreStored, write_of};
ghost use Rattle.base_code.specs.Pieces.{base_pieces, first_piece, kept_bytes, parts, receipts_piece, rows_piece};

use crate::base::{Base, Kept};
use alto_rows::{Key, Value};
use batch_code::push_row;
use code_bytes::push_name;
use std::alloc::{AllocError, Global};

/// The pieces of a base behind one batch or more. Its rows are those of a book but for the epoch and the window.
pub fn encode_base(alloc: Global, base: &Base) -> Result<Vec<Vec<u8>>, AllocError>
    requires some { 1 ≤ base.now.b }
    requires receipts { length base.now.receipts ≡ base.now.b }
    requires few { length base.now.rows ≤ 400000 }
    requires sorted { AreSorted base.now.rows }
    requires stored { All (λ row. IsStored (write_of row)) base.now.rows }
    ensures { IfOk result (λ pieces. map vec_items pieces.items ≡ base_pieces base.now) }
{
    let mut pieces = Vec::new(alloc);
    pieces.push(encode_first(alloc, base.b, base.rows.len() as u32)?)?;
    push_receipts(alloc, &mut pieces, &base.receipts)?;
    push_rows(alloc, &mut pieces, &base.rows)?;
    Ok(pieces)
}

/// The first piece of a base.
fn encode_first(alloc: Global, b: u64, count: u32) -> Result<Vec<u8>, AllocError>
    ensures { IfOk result (λ piece. piece.items ≡ first_piece b count) }
{
    let mut out = Vec::new(alloc);
    out.push(0x43)?;
    out.push(0x01)?;
    out.extend_from_slice(&b.to_be_bytes())?;
    out.extend_from_slice(&count.to_be_bytes())?;
    Ok(out)
}

/// Adds the pieces of receipts.
fn push_receipts(
    alloc: Global,
    pieces: &mut Vec<Vec<u8>>,
    receipts: &[Kept],
) -> Result<(), AllocError>
    ensures { OnOk result (map vec_items pieces.new.items
        ≡ map vec_items pieces.old.items ++ map receipts_piece (parts receipts.now)) }
{
    for part in receipts.chunks(4096) {
        pieces.push(encode_receipts(alloc, part)?)?;
    }
    Ok(())
}

/// A piece of receipts.
fn encode_receipts(alloc: Global, receipts: &[Kept]) -> Result<Vec<u8>, AllocError>
    requires { length receipts.now ≤ 4096 }
    ensures { IfOk result (λ piece. piece.items ≡ receipts_piece receipts.now) }
{
    let mut out = Vec::new(alloc);
    out.push(0x44)?;
    out.push(0x01)?;
    out.extend_from_slice(&(receipts.len() as u16).to_be_bytes())?;
    for kept in receipts {
        push_kept(&mut out, kept)?;
    }
    Ok(out)
}

/// Writes a receipt.
fn push_kept(out: &mut Vec<u8>, kept: &Kept) -> Result<(), AllocError>
    ensures { OnOk result (out.new.items ≡ out.old.items ++ kept_bytes kept.now) }
{
    push_name(out, &kept.id)?;
    out.extend_from_slice(&kept.digest)?;
    out.extend_from_slice(&kept.moment.to_be_bytes())
}

/// Adds the pieces of rows.
fn push_rows(
    alloc: Global,
    pieces: &mut Vec<Vec<u8>>,
    rows: &[(Key, Value)],
) -> Result<(), AllocError>
    requires { All (λ row. IsStored (write_of row)) rows.now }
    ensures { OnOk result (map vec_items pieces.new.items
        ≡ map vec_items pieces.old.items ++ map rows_piece (parts rows.now)) }
{
    for part in rows.chunks(4096) {
        pieces.push(encode_rows(alloc, part)?)?;
    }
    Ok(())
}

/// A piece of rows.
fn encode_rows(alloc: Global, rows: &[(Key, Value)]) -> Result<Vec<u8>, AllocError>
    requires few { length rows.now ≤ 4096 }
    requires stored { All (λ row. IsStored (write_of row)) rows.now }
    ensures { IfOk result (λ piece. piece.items ≡ rows_piece rows.now) }
{
    let mut out = Vec::new(alloc);
    out.push(0x45)?;
    out.push(0x01)?;
    out.extend_from_slice(&(rows.len() as u16).to_be_bytes())?;
    for row in rows {
        push_row(&mut out, &row.0, &row.1)?;
    }
    Ok(out)
}
