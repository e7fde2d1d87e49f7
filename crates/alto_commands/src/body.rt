//! The body of an import: the input to its end.
ghost use Rattle.std.specs.Prelude.{◌≡◌, ◌≢◌, ◌<◌, ◌≤◌, ◌++◌, ℕ, List, length, IfErr, IfOk};
ghost use Rattle.alto_http.specs.Link.{IsAtEnd};
ghost use Rattle.alto_commands.specs.Bodies.{Came, IsBody, IsNoBody, reads_after};

use crate::fault::BodyFault;
use alto_http::Link;
use std::alloc::Global;

/// The most bytes of a body: 4 MiB.
const MOST_BYTES: usize = 4_194_304;

/// The most bytes of one read.
const PIECE_BYTES: usize = 8_192;

/// Reads a body: all that a link has left. At most one byte is read past the most that a body may have.
pub(crate) fn read_body<L: Link>(alloc: Global, link: &mut L) -> Result<Vec<u8>, BodyFault>
    ensures ok { IfOk result (λ body. IsBody body.items (L.left link.old) (L.left link.new)) }
    ensures err { IfErr result (λ fault. IsNoBody fault (L.left link.old) (L.left link.new)) }
    ensures reads { L.failed_reads link.new ≡ reads_after result (L.failed_reads link.old) }
    ensures out { L.out link.new ≡ L.out link.old }
    ensures writes { L.failed_writes link.new ≡ L.failed_writes link.old }
{
    let mut piece = [0; PIECE_BYTES];
    let mut body = Vec::new(alloc);
    'pieces: while body.len() <= MOST_BYTES {
        let room = PIECE_BYTES.min(MOST_BYTES + 1 - body.len());
        if read_piece(link, &mut piece[..room], &mut body)? == 0 {
            return Ok(body);
        }
    }
    Err(BodyFault::TooLarge)
}

/// Reads once, and adds to a body what came. Gives how many bytes that was: 0 only at the end of the input.
fn read_piece<L: Link>(
    link: &mut L,
    piece: &mut [u8],
    body: &mut Vec<u8>,
) -> Result<usize, BodyFault>
    requires { 0 < length piece.old }
    ensures ok { IfOk result (λ count. (bytes : List ℕ) × Came bytes (L.left link.old) (L.left link.new)
        × (body.new.items ≡ body.old.items ++ bytes) × (length bytes ≡ count)) }
    ensures within { IfOk result (λ count. count ≤ length piece.old) }
    ensures at_end { IfOk result (λ count. count ≡ 0 → IsAtEnd (L.left link.new)) }
    ensures lost { IfErr result (λ fault. fault ≡ BodyFault.Memory
        → (bytes : List ℕ) × Came bytes (L.left link.old) (L.left link.new)) }
    ensures failed { IfErr result (λ fault. fault ≡ BodyFault.ReadFault → L.left link.new ≡ L.left link.old) }
    ensures own { IfErr result (λ fault. fault ≢ BodyFault.TooLarge) }
    ensures reads { L.failed_reads link.new ≡ reads_after result (L.failed_reads link.old) }
    ensures out { L.out link.new ≡ L.out link.old }
    ensures writes { L.failed_writes link.new ≡ L.failed_writes link.old }
{
    let count = link.read(piece)?;
    body.extend_from_slice(&piece[..count])?;
    Ok(count)
}
