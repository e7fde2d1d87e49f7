ghost use Rattle.std.specs.Prelude.{◌≡◌, ◌∷◌, IfOk, IfErr};
ghost use Rattle.code_bytes.specs.Pieces.{One};
ghost use Rattle.code_bytes.specs.Stuck.{Stops};

use crate::first::first_byte;
use crate::stop::Stop;

/// What is behind this byte.
pub fn read_one(bytes: &[u8], byte: u8) -> Result<&[u8], Stop>
    ensures ok { IfOk result (λ rest. bytes.now ≡ byte ∷ rest.now) }
    ensures stops { IfErr result (Stops (One byte) bytes.now) }
{
    let Some((first, rest)) = first_byte(bytes) else {
        return Err(Stop::Left(0));
    };
    if first != byte {
        return Err(Stop::Left(bytes.len()));
    }
    Ok(rest)
}
