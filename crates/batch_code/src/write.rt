ghost use Rattle.std.specs.Prelude.{◌≡◌, ◌≤◌, ◌∷◌, ◌++◌, All, IfOk, IfErr, length};
ghost use Rattle.std.specs.List.{flat_map};
ghost use Rattle.code_bytes.specs.Pieces.{number};
ghost use Rattle.code_bytes.specs.Stuck.{Stops, Times};
ghost use Rattle.batch_code.specs.Grammar.{Behind, WriteLists, Writes, key_number};
ghost use Rattle.batch_code.specs.Spelling.{write_bytes};
ghost use Rattle.batch_code.specs.Storable.{IsStored};

use crate::key::read_key;
use crate::kinds::KeyKind;
use crate::names::Names;
use crate::value::read_value;
use alto_rows::Write;
use code_bytes::{Stop, first_byte, read_number};
use std::alloc::Global;

/// Reads writes behind their number. Their keys share names.
pub(crate) fn read_writes<'a>(
    alloc: Global,
    names: &mut Names,
    bytes: &'a [u8],
) -> Result<(Vec<Write>, &'a [u8]), Stop>
    ensures ok { IfOk result (λ x. All IsStored x.0.items × (length x.0.items ≤ 16384)
        × (bytes.now ≡ (number 4 (length x.0.items) ++ flat_map write_bytes x.0.items) ++ x.1.now)) }
    ensures stops { IfErr result (Stops WriteLists bytes.now) }
{
    let (count, rest) = read_number(bytes, 4, 0, 16384)?;
    let (writes, rest) = writes_of(alloc, names, count, rest)?;
    Ok((writes, rest))
}

/// Reads so many writes from the front of bytes, and gives what is left. Their keys share names. One search for each
/// name.
pub fn writes_of<'a>(
    alloc: Global,
    names: &mut Names,
    count: u64,
    bytes: &'a [u8],
) -> Result<(Vec<Write>, &'a [u8]), Stop>
    ensures ok { IfOk result (λ x. All IsStored x.0.items × (length x.0.items ≡ count)
        × (bytes.now ≡ flat_map write_bytes x.0.items ++ x.1.now)) }
    ensures stops { IfErr result (Stops (Times count Writes) bytes.now) }
{
    let mut writes = Vec::new(alloc);
    let mut rest = bytes;
    for _ in 0..count {
        let (write, after) = read_write(alloc, rest)?;
        let shared = names.shared_write(write)?;
        writes.push(shared)?;
        rest = after;
    }
    Ok((writes, rest))
}

/// Reads a write.
fn read_write(alloc: Global, bytes: &[u8]) -> Result<(Write, &[u8]), Stop>
    ensures ok { IfOk result (λ x. IsStored x.0 × (bytes.now ≡ write_bytes x.0 ++ x.1.now)) }
    ensures stops { IfErr result (Stops Writes bytes.now) }
{
    let Some((number, rest)) = first_byte(bytes) else {
        return Err(Stop::Left(0));
    };
    let Some(of) = KeyKind::of(number) else {
        return Err(Stop::Left(bytes.len()));
    };
    let (write, rest) = read_behind(alloc, of, rest)?;
    Ok((write, rest))
}

/// Reads what a write of a key of this kind holds behind its kind.
fn read_behind(alloc: Global, of: KeyKind, bytes: &[u8]) -> Result<(Write, &[u8]), Stop>
    ensures ok { IfOk result (λ x. IsStored x.0 × (key_number of ∷ bytes.now ≡ write_bytes x.0 ++ x.1.now)) }
    ensures stops { IfErr result (Stops (Behind of) bytes.now) }
{
    let (key, rest) = read_key(alloc, of, bytes)?;
    match read_value(alloc, of.shape(), rest) {
        Ok((value, rest)) => Ok((Write { key, value }, rest)),
        Err(stop) => {
            // By a call, which is far cheaper to prove than a drop in place, variant by variant.
            drop(key);
            Err(stop)
        }
    }
}
