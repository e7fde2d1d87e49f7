//! The base and the batches that records spell.
ghost use Rattle.std.specs.Prelude.{◌≡◌, ◌≢◌, ◌+◌, ◌<◌, ◌^◌, pos, All, IfErr, IfOk, MatchBool, length, map, vec_items};
ghost use Rattle.alto_keeper.specs.Stored.{numbered};
ghost use Rattle.base_code.specs.Bases.{IsBase};
ghost use Rattle.batch_code.specs.Spelling.{batch_bytes, head_bytes};
ghost use Rattle.batch_code.specs.Storable.{IsStorable, IsHead};
ghost use Rattle.alto_desk.specs.Opening.{AreOf, Explains, TellsBase, TellsHead, TellsRow, TellsRows};
ghost use Rattle.alto_desk.specs.Pieces.{IsNumberedFront};
ghost use Rattle.alto_desk.specs.Records.{records_of};

use crate::fault::OpenFault;
use alto_keeper::{Stored, StoredRow};
use alto_names::Epoch;
use alto_rows::Batch;
use base_code::{Base, BaseFault, decode_base};
use batch_code::{CodeFault, Names, decode, decode_head};
use std::alloc::{AllocError, Global};

/// What records spell: the epoch and the window with which a book began, its base, and its batches.
#[derive(Drop)]
pub(crate) struct Records {
    pub(crate) epoch: Epoch,
    pub(crate) window: u32,
    pub(crate) base: Base,
    pub(crate) batches: Vec<Batch>,
}

/// What these records spell, or the first row or piece that isn't in its place: the first row, then the pieces of the
/// base, then the other rows. All keys share names.
pub(crate) fn read_records(alloc: Global, stored: Stored) -> Result<Records, OpenFault>
    ensures spelled { IfOk result (λ records.
        stored ≡ records_of records.epoch records.window records.base records.batches.items) }
    ensures head { IfOk result (λ records. IsHead records.epoch records.window) }
    ensures base { IfOk result (λ records. IsBase records.base) }
    ensures storable { IfOk result (λ records. All IsStorable records.batches.items) }
    ensures err { IfErr result (λ fault. Explains fault stored) }
    ensures own { IfErr result (λ fault. fault ≢ OpenFault.Keeper) }
{
    let Stored { base, rows } = stored;
    let Some((first, rest)) = rows.split_first() else {
        return Err(OpenFault::Damaged(0));
    };
    let (epoch, window) = read_head(alloc, first)?;
    let mut names = Names::new(alloc);
    let base = read_base(alloc, &mut names, base)?;
    let batches = read_batches(alloc, &mut names, base.receipts.len() as u64, rest)?;
    Ok(Records {
        epoch,
        window,
        base,
        batches,
    })
}

/// The epoch and the window that the first row spells.
fn read_head(alloc: Global, row: &StoredRow) -> Result<(Epoch, u32), OpenFault>
    ensures ok { IfOk result (λ head. IsHead head.0 head.1
        × (row.now ≡ record { n = pos 0; bytes = head_bytes head.0 head.1 })) }
    ensures err { IfErr result (λ fault. TellsHead fault row.now) }
{
    if !is_place(row.n, 0) {
        return Err(OpenFault::Damaged(0));
    }
    match decode_head(alloc, &row.bytes) {
        Ok(head) => Ok(head),
        Err(CodeFault::BadAt(_)) => Err(OpenFault::Damaged(0)),
        Err(CodeFault::Memory) => Err(OpenFault::Memory),
    }
}

/// The base whose pieces these rows are, or the first that isn't a piece in its place.
fn read_base(alloc: Global, names: &mut Names, rows: Vec<StoredRow>) -> Result<Base, OpenFault>
    ensures ok { IfOk result (λ base. AreOf rows.items base) }
    ensures err { IfErr result (λ fault. TellsBase fault rows.items) }
{
    let count = rows.len();
    let pieces = pieces_of(alloc, rows)?;
    match decode_base(alloc, names, &pieces) {
        Ok(base) => {
            if pieces.len() == count {
                Ok(base)
            } else {
                Err(OpenFault::DamagedBase(pieces.len() as u64))
            }
        }
        Err(BaseFault::BadPiece(place)) => Err(OpenFault::DamagedBase(place as u64)),
        Err(BaseFault::Memory) => Err(OpenFault::Memory),
    }
}

/// The bytes of the rows before the first whose number isn't its place.
fn pieces_of(alloc: Global, rows: Vec<StoredRow>) -> Result<Vec<Vec<u8>>, AllocError>
    ensures { IfOk result (λ pieces. IsNumberedFront (map vec_items pieces.items) rows.items) }
{
    let mut pieces = Vec::with_capacity(alloc, rows.len())?;
    for row in rows {
        if !is_at(&row, pieces.len() as u64) {
            return Ok(pieces);
        }
        pieces.push(row.bytes)?;
    }
    Ok(pieces)
}

/// The batches that the rows behind the first spell, behind base `b`.
fn read_batches(
    alloc: Global,
    names: &mut Names,
    b: u64,
    rows: &[StoredRow],
) -> Result<Vec<Batch>, OpenFault>
    requires { b + length rows.now + 1 < 2 ^ 64 }
    ensures spelled { IfOk result (λ batches. rows.now ≡ numbered (b + 1) (map batch_bytes batches.items)) }
    ensures storable { IfOk result (λ batches. All IsStorable batches.items) }
    ensures err { IfErr result (λ fault. TellsRows fault b rows.now) }
{
    let mut batches = Vec::with_capacity(alloc, rows.len())?;
    for row in rows {
        let number = b + batches.len() as u64 + 1;
        batches.push(read_batch(alloc, names, number, row)?)?;
    }
    Ok(batches)
}

/// The batch with this number, which its row spells.
fn read_batch(
    alloc: Global,
    names: &mut Names,
    number: u64,
    row: &StoredRow,
) -> Result<Batch, OpenFault>
    ensures ok { IfOk result (λ batch. IsStorable batch
        × (row.now ≡ record { n = pos number; bytes = batch_bytes batch })) }
    ensures err { IfErr result (λ fault. TellsRow fault number row.now) }
{
    if !is_place(row.n, number) {
        return Err(OpenFault::Damaged(number));
    }
    match decode(alloc, names, &row.bytes) {
        Ok(batch) => Ok(batch),
        Err(CodeFault::BadAt(_)) => Err(OpenFault::Damaged(number)),
        Err(CodeFault::Memory) => Err(OpenFault::Memory),
    }
}

/// Whether a row has the number of this place.
fn is_at(row: &StoredRow, place: u64) -> bool
    ensures { MatchBool result (row.now.n ≡ pos place) (row.now.n ≢ pos place) }
{
    is_place(row.n, place)
}

/// Whether a row's number is a place.
fn is_place(n: i64, place: u64) -> bool
    ensures { MatchBool result (n ≡ pos place) (n ≢ pos place) }
{
    0 <= n && n as u64 == place
}
