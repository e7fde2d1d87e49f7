ghost use Rattle.std.specs.Prelude.{◌≡◌, ◌++◌, IfOk, IfErr};
ghost use Rattle.code_bytes.specs.Pieces.{Fixed};
ghost use Rattle.code_bytes.specs.Stuck.{Stops};

use crate::stop::Stop;

/// Takes so many bytes, whatever they are.
pub fn read_fixed(bytes: &[u8], count: usize) -> Result<(&[u8], &[u8]), Stop>
    ensures ok { IfOk result (λ x. Fixed count x.0.now × (bytes.now ≡ x.0.now ++ x.1.now)) }
    ensures stops { IfErr result (Stops (Fixed count) bytes.now) }
{
    if bytes.len() < count {
        return Err(Stop::Left(0));
    }
    let (front, rest) = bytes.split_at(count);
    Ok((front, rest))
}
