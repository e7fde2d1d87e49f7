ghost use Rattle.std.specs.Prelude.{◌≡◌, ℕ, true, Err, IfOk};
ghost use Rattle.alto_http.specs.Intake.{reads_after};
ghost use Rattle.alto_replies.specs.Replies.{status_alone};
ghost use Rattle.alto_replies.specs.Reply.{IsReply, bytes_of};
ghost use Rattle.alto_serve.specs.Steps.{Refuses, RefusesWith, EndsOutOfMemory, Writes, reads_at, writes_at};

use crate::end::End;
use alto_http::{HeadFault, Link, write_all};
use alto_replies::{head_status, reply_bytes, status_alone};
use std::alloc::{AllocError, Global};

/// The reply where memory ran out, which is written without taking any.
const MEMORY_REPLY: &[u8] =
    b"HTTP/1.1 500 Internal Server Error\r\nContent-Length: 0\r\nConnection: close\r\n\r\n";

/// Answers bytes that brought no request, and ends the connection: its end is a read's fault exactly where that is why.
pub(crate) fn refuse<L: Link>(alloc: Global, link: &mut L, fault: HeadFault) -> End
    ensures written { Writes (Refuses result fault) (L.out link.old) (L.out link.new) }
    ensures why { (n : ℕ) → reads_at result n ≡ reads_after {T = ℕ} (Err fault) n }
    ensures writes { L.failed_writes link.new ≡ writes_at result (L.failed_writes link.old) }
    ensures reads { L.failed_reads link.new ≡ L.failed_reads link.old }
    ensures left { L.left link.new ≡ L.left link.old }
{
    match head_status(fault) {
        Some(status) => refuse_with(alloc, link, status),
        None => unanswered(link, fault),
    }
}

/// The end of a connection whose bytes brought no request and have no status.
fn unanswered<L: Link>(link: &mut L, fault: HeadFault) -> End
    ensures written { Writes (Refuses result fault) (L.out link.old) (L.out link.new) }
    ensures why { (n : ℕ) → reads_at result n ≡ reads_after {T = ℕ} (Err fault) n }
    ensures writes { L.failed_writes link.new ≡ writes_at result (L.failed_writes link.old) }
    ensures reads { L.failed_reads link.new ≡ L.failed_reads link.old }
    ensures left { L.left link.new ≡ L.left link.old }
{
    match fault {
        HeadFault::Cut => End::Cut,
        HeadFault::ReadFault => End::ReadFault,
        _ => out_of_memory(link),
    }
}

/// Answers a status and closes.
fn refuse_with<L: Link>(alloc: Global, link: &mut L, status: u16) -> End
    requires { IsReply (status_alone status) }
    ensures written { Writes (RefusesWith result status) (L.out link.old) (L.out link.new) }
    ensures no_read { (n : ℕ) → reads_at result n ≡ n }
    ensures writes { L.failed_writes link.new ≡ writes_at result (L.failed_writes link.old) }
    ensures reads { L.failed_reads link.new ≡ L.failed_reads link.old }
    ensures left { L.left link.new ≡ L.left link.old }
{
    let Ok(bytes) = refusal_bytes(alloc, status) else {
        return out_of_memory(link);
    };
    match write_all(link, &bytes) {
        Ok(()) => End::Closed,
        Err(_) => End::WriteFault,
    }
}

/// The bytes of the refusal of this status, which closes.
fn refusal_bytes(alloc: Global, status: u16) -> Result<Vec<u8>, AllocError>
    requires { IsReply (status_alone status) }
    ensures { IfOk result (λ bytes. bytes.items ≡ bytes_of (status_alone status) true) }
{
    let reply = status_alone(alloc, status)?;
    reply_bytes(alloc, &reply, true)
}

/// Answers that memory ran out, without taking any, and ends the connection.
pub(crate) fn out_of_memory<L: Link>(link: &mut L) -> End
    ensures written { Writes (EndsOutOfMemory result) (L.out link.old) (L.out link.new) }
    ensures writes { L.failed_writes link.new ≡ writes_at result (L.failed_writes link.old) }
    ensures reads { L.failed_reads link.new ≡ L.failed_reads link.old }
    ensures left { L.left link.new ≡ L.left link.old }
{
    match write_all(link, MEMORY_REPLY) {
        Ok(()) => End::Memory,
        Err(_) => End::WriteFault,
    }
}
