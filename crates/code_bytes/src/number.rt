ghost use Rattle.std.specs.Prelude.{◌≡◌, ◌↔◌, ◌<◌, ◌≤◌, ◌+◌, ◌*◌, ◌/◌, ◌^◌, ◌++◌, IfOk, IfErr, IsTrue};
ghost use Rattle.code_bytes.specs.Pieces.{Begins, Numbers, NumbersFrom, number};
ghost use Rattle.code_bytes.specs.Stuck.{Stops};

use crate::first::first_byte;
use crate::stop::Stop;

/// Reads a number of `least` to `most` in `count` bytes, the highest first.
pub fn read_number(bytes: &[u8], count: u32, least: u64, most: u64) -> Result<(u64, &[u8]), Stop>
    requires few { count ≤ 8 }
    requires some { least ≤ most }
    requires fits { most < 2 ^ (8 * count) }
    ensures ok { IfOk result (λ x. (least ≤ x.0) × (x.0 ≤ most) × (bytes.now ≡ number count x.0 ++ x.1.now)) }
    ensures stops { IfErr result (Stops (Numbers count least most) bytes.now) }
{
    let (value, rest) = number_from(bytes, count, 0, least, most)?;
    Ok((value, rest))
}

/// Reads the last `count` bytes of such a number, where those before them write `before`.
fn number_from(
    bytes: &[u8],
    count: u32,
    before: u64,
    least: u64,
    most: u64,
) -> Result<(u64, &[u8]), Stop>
    requires few { count ≤ 8 }
    requires some { least ≤ most }
    requires begins { Begins count before least most }
    ensures ok { IfOk result (λ x. (least ≤ x.0) × (x.0 ≤ most) × (x.0 / 2 ^ (8 * count) ≡ before)
        × (bytes.now ≡ number count x.0 ++ x.1.now)) }
    ensures stops { IfErr result (Stops (NumbersFrom count before least most) bytes.now) }
{
    if count == 0 {
        return Ok((before, bytes));
    }
    let Some((byte, rest)) = first_byte(bytes) else {
        return Err(Stop::Left(0));
    };
    let next = before * 256 + u64::from(byte);
    if !begins(count - 1, next, least, most) {
        return Err(Stop::Left(bytes.len()));
    }
    number_from(rest, count - 1, next, least, most)
}

/// Whether some number of the range has these bytes before its last `count`.
fn begins(count: u32, before: u64, least: u64, most: u64) -> bool
    requires { count < 8 }
    ensures { IsTrue result ↔ Begins count before least most }
{
    let behind = 8 * count;
    least >> behind <= before && before <= most >> behind
}
