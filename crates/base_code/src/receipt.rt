ghost use Rattle.std.specs.Prelude.{◌≡◌, ◌≤◌, ◌++◌, All, IfOk, IfErr, List, length};
ghost use Rattle.std.specs.List.{flat_map};
ghost use Rattle.code_bytes.specs.Stuck.{Stops, Times};
ghost use Rattle.base_code.specs.Bases.{IsKept, KeptData};
ghost use Rattle.base_code.specs.Parts.{Denies, HasItems, Receipts};
ghost use Rattle.base_code.specs.Pieces.{kept_bytes};

use crate::base::Kept;
use crate::part::read_head;
use code_bytes::{Stop, read_fixed, read_name, read_number};
use std::alloc::Global;

/// Reads a piece of `count` receipts.
pub(crate) fn read_receipts(alloc: Global, piece: &[u8], count: u64) -> Result<Vec<Kept>, Stop>
    requires { count ≤ 4096 }
    ensures ok { IfOk result (λ receipts. HasItems 0x44 kept_bytes IsKept count piece.now receipts.items) }
    ensures stops { IfErr result (Denies ((receipts : List KeptData)
        × HasItems 0x44 kept_bytes IsKept count piece.now receipts)) }
{
    let rest = read_head(piece, 0x44, count)?;
    let (receipts, rest) = receipts_of(alloc, count, rest)?;
    if !rest.is_empty() {
        return Err(Stop::Left(rest.len()));
    }
    Ok(receipts)
}

/// Reads `count` receipts from the start of bytes, and gives what is left.
fn receipts_of(alloc: Global, count: u64, bytes: &[u8]) -> Result<(Vec<Kept>, &[u8]), Stop>
    ensures ok { IfOk result (λ x. All IsKept x.0.items × (length x.0.items ≡ count)
        × (bytes.now ≡ flat_map kept_bytes x.0.items ++ x.1.now)) }
    ensures stops { IfErr result (Stops (Times count Receipts) bytes.now) }
{
    let mut receipts = Vec::new(alloc);
    let mut rest = bytes;
    for _ in 0..count {
        let (kept, after) = read_kept(alloc, rest)?;
        receipts.push(kept)?;
        rest = after;
    }
    Ok((receipts, rest))
}

/// Reads a receipt from the start of bytes, and gives what is left.
fn read_kept(alloc: Global, bytes: &[u8]) -> Result<(Kept, &[u8]), Stop>
    ensures ok { IfOk result (λ x. IsKept x.0 × (bytes.now ≡ kept_bytes x.0 ++ x.1.now)) }
    ensures stops { IfErr result (Stops Receipts bytes.now) }
{
    let (id, rest) = read_name(alloc, bytes)?;
    let (front, rest) = read_fixed(rest, 32)?;
    let (moment, rest) = read_number(rest, 8, 0, 0xffff_ffff_ffff_ffff)?;
    let mut digest = [0; 32];
    digest.copy_from_slice(front);
    Ok((Kept { id, digest, moment }, rest))
}
