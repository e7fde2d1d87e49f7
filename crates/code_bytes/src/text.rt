ghost use Rattle.std.specs.Prelude.{◌≡◌, ◌++◌, IfOk, IfErr};
ghost use Rattle.code_bytes.specs.Pieces.{Texts};
ghost use Rattle.code_bytes.specs.Stuck.{Stops};

use crate::inside::left_in_text;
use crate::stop::Stop;
use std::str;

/// Takes a text in UTF-8 of so many bytes.
pub fn read_text(bytes: &[u8], count: usize) -> Result<(&str, &[u8]), Stop>
    ensures ok { IfOk result (λ x. Texts count x.0.now × (bytes.now ≡ x.0.now ++ x.1.now)) }
    ensures stops { IfErr result (Stops (Texts count) bytes.now) }
{
    if bytes.len() < count {
        return Err(Stop::Left(left_in_text(bytes, count)));
    }
    let (front, rest) = bytes.split_at(count);
    match str::from_utf8(front) {
        Ok(text) => Ok((text, rest)),
        Err(_) => Err(Stop::Left(left_in_text(bytes, count))),
    }
}
