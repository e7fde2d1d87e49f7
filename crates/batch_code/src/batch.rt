ghost use Rattle.std.specs.Prelude.{◌≡◌, ◌<◌, ◌≤◌, ◌^◌, ◌++◌, All, IfOk, IfErr, length};
ghost use Rattle.std.specs.List.{flat_map};
ghost use Rattle.code_bytes.specs.Pieces.{number};
ghost use Rattle.code_bytes.specs.Stuck.{Stops};
ghost use Rattle.batch_code.specs.Grammar.{AfterId, BatchTexts, HeadTexts};
ghost use Rattle.batch_code.specs.Spelling.{batch_bytes, head_bytes, write_bytes};
ghost use Rattle.batch_code.specs.Bodies.{accepted};
ghost use Rattle.batch_code.specs.Storable.{IsHead, IsStorable, IsStored};

use crate::names::Names;
use crate::write::read_writes;
use alto_names::{Epoch, ImportId};
use alto_rows::{Batch, Write};
use code_bytes::{Stop, read_fixed, read_name, read_number, read_one};
use std::alloc::Global;

/// Reads a batch from the front of bytes. Its keys share names.
pub(crate) fn read_batch<'a>(
    alloc: Global,
    names: &mut Names,
    bytes: &'a [u8],
) -> Result<(Batch, &'a [u8]), Stop>
    ensures ok { IfOk result (λ x. IsStorable x.0 × (bytes.now ≡ batch_bytes x.0 ++ x.1.now)) }
    ensures stops { IfErr result (Stops BatchTexts bytes.now) }
{
    let rest = read_one(bytes, 0x42)?;
    let rest = read_one(rest, 0x01)?;
    let (id, rest) = read_name(alloc, rest)?;
    let (body, rest) = read_body(alloc, names, rest)?;
    Ok((batch_of(id, body), rest))
}

/// The batch of this id.
fn batch_of(id: ImportId, body: Body) -> Batch
    ensures { result ≡ accepted id body }
{
    let digest = body.digest;
    let moment = body.moment;
    let writes = body.writes;
    Batch {
        id,
        digest,
        moment,
        writes,
    }
}

/// What a batch holds behind its id.
#[derive(Drop)]
struct Body {
    digest: [u8; 32],
    moment: u64,
    writes: Vec<Write>,
}

/// Reads what a batch holds behind its id.
fn read_body<'a>(
    alloc: Global,
    names: &mut Names,
    bytes: &'a [u8],
) -> Result<(Body, &'a [u8]), Stop>
    ensures ok { IfOk result (λ x. (length x.0.digest ≡ 32) × (x.0.moment < 2 ^ 64)
        × All IsStored x.0.writes.items × (length x.0.writes.items ≤ 16384)
        × (bytes.now ≡ (x.0.digest ++ (number 8 x.0.moment ++ (number 4 (length x.0.writes.items)
        ++ flat_map write_bytes x.0.writes.items))) ++ x.1.now)) }
    ensures stops { IfErr result (Stops AfterId bytes.now) }
{
    let (front, rest) = read_fixed(bytes, 32)?;
    let (moment, rest) = read_number(rest, 8, 0, 0xffff_ffff_ffff_ffff)?;
    let (writes, rest) = read_writes(alloc, names, rest)?;
    let mut digest = [0; 32];
    digest.copy_from_slice(front);
    Ok((
        Body {
            digest,
            moment,
            writes,
        },
        rest,
    ))
}

/// Reads the row before the batches from the front of bytes.
pub(crate) fn read_head(alloc: Global, bytes: &[u8]) -> Result<((Epoch, u32), &[u8]), Stop>
    ensures ok { IfOk result (λ x. IsHead x.0.0 x.0.1 × (bytes.now ≡ head_bytes x.0.0 x.0.1 ++ x.1.now)) }
    ensures stops { IfErr result (Stops HeadTexts bytes.now) }
{
    let rest = read_one(bytes, 0x41)?;
    let rest = read_one(rest, 0x01)?;
    let (epoch, rest) = read_name(alloc, rest)?;
    let (window, rest) = read_number(rest, 4, 2, 32)?;
    Ok(((epoch, window as u32), rest))
}
