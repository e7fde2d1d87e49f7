ghost use Rattle.std.specs.Prelude.{◌≡◌, IfOk, IfErr, length};
ghost use Rattle.batch_code.specs.Faults.{IsBatch, IsFaultOf, IsRowZero, fault_at};
ghost use Rattle.batch_code.specs.Spelling.{batch_bytes, head_bytes};
ghost use Rattle.batch_code.specs.Storable.{IsHead, IsStorable};

use crate::batch::{read_batch, read_head};
use crate::fault::CodeFault;
use crate::names::Names;
use alto_names::Epoch;
use alto_rows::Batch;
use code_bytes::Stop;
use std::alloc::Global;

/// Reads a stored batch. The bytes are its spelling, and nothing follows. Its keys share names with each other and with
/// those that were read with the same `names`. Linear in the bytes, with one search for each name.
pub fn decode(alloc: Global, names: &mut Names, bytes: &[u8]) -> Result<Batch, CodeFault>
    ensures ok { IfOk result (λ batch. IsStorable batch × (bytes.now ≡ batch_bytes batch)) }
    ensures err { IfErr result (IsFaultOf IsBatch bytes.now) }
{
    match read_batch(alloc, names, bytes) {
        Ok((batch, rest)) => {
            if rest.is_empty() {
                return Ok(batch);
            }
            Err(CodeFault::BadAt(bytes.len() - rest.len()))
        }
        Err(stop) => Err(fault_of(bytes, stop)),
    }
}

/// Reads the row before the batches: the epoch and the window.
pub fn decode_head(alloc: Global, bytes: &[u8]) -> Result<(Epoch, u32), CodeFault>
    ensures ok { IfOk result (λ head. IsHead head.0 head.1 × (bytes.now ≡ head_bytes head.0 head.1)) }
    ensures err { IfErr result (IsFaultOf IsRowZero bytes.now) }
{
    match read_head(alloc, bytes) {
        Ok((head, rest)) => {
            if rest.is_empty() {
                return Ok(head);
            }
            Err(CodeFault::BadAt(bytes.len() - rest.len()))
        }
        Err(stop) => Err(fault_of(bytes, stop)),
    }
}

/// Where in these bytes their reader stopped.
fn fault_of(bytes: &[u8], stop: Stop) -> CodeFault
    ensures { result ≡ fault_at (length bytes.now) stop }
{
    match stop {
        Stop::Left(left) => CodeFault::BadAt(bytes.len().saturating_sub(left)),
        Stop::Memory => CodeFault::Memory,
    }
}
