ghost use Rattle.std.specs.Prelude.{◌≡◌, ◌≤◌, ℕ, List, IfOk, IfErr};
ghost use Rattle.base_code.specs.Parts.{Denies, GoesOn, next_count};

use code_bytes::{Stop, read_number, read_one};

/// How many items are in a piece, but in the last of its kind.
const IN_PIECE: u64 = 4096;

/// How many of `total` items the next piece holds, where those before it hold `done`.
pub(crate) fn next_part(total: u64, done: usize) -> u64
    requires { done ≤ total }
    ensures { result ≡ next_count total done }
{
    IN_PIECE.min(total - done as u64)
}

/// What is behind the mark, 01 and this number of items.
pub(crate) fn read_head(piece: &[u8], mark: u8, count: u64) -> Result<&[u8], Stop>
    requires { count ≤ 4096 }
    ensures ok { IfOk result (λ rest. GoesOn mark count piece.now rest.now) }
    ensures stops { IfErr result (Denies ((rest : List ℕ) × GoesOn mark count piece.now rest)) }
{
    let rest = read_one(piece, mark)?;
    let rest = read_one(rest, 0x01)?;
    let (_, rest) = read_number(rest, 2, count, count)?;
    Ok(rest)
}
