ghost use Rattle.std.specs.Prelude.{◌≡◌, ◌≢◌, ℕ, List, IfOk, IfErr, IfSome, IsErrOf, ◌⊎◌, Some};
ghost use Rattle.alto_http.specs.Intake.{GivesOnly, KeepsWhole, ReadsAhead, reads_after};
ghost use Rattle.alto_http.specs.Link.{followed_by, IsAtEnd};
ghost use Rattle.alto_http.specs.Splits.{Begins, IsBlank, IsRefused, IsUnfinished, EndsInBody, EndsInside};

use crate::fault::HeadFault;
use crate::head::read_head;
use crate::intake::Intake;
use crate::link::Link;
use crate::receive::{find_head, take_body};
use crate::request::Request;
use crate::scan::part;
use std::alloc::Global;

/// Reads the next request, or none at the end of the input. CR and LF bytes before it are passed
/// over, and bytes that came behind it stay in the intake.
pub fn read_request<L: Link>(
    alloc: Global,
    intake: &mut Intake,
    link: &mut L,
) -> Result<Option<Request>, HeadFault>
    // Where the link's bytes are known, those ahead and those left begin with the answer.
    ensures request { IfOk result (λ r. IfSome r (λ request. IfSome (followed_by intake.old (L.left link.old)) (λ bytes.
        (rest : List ℕ) × (followed_by intake.new (L.left link.new) ≡ Some rest) × Begins bytes request rest))) }
    ensures none { IfOk result (λ r. r ≡ None → IfSome (followed_by intake.old (L.left link.old)) IsBlank) }
    ensures refused { IfErr result (λ e. (e ≢ HeadFault.Cut) → (e ≢ HeadFault.ReadFault) → (e ≢ HeadFault.Memory)
        → IfSome (followed_by intake.old (L.left link.old)) (λ bytes. IsRefused bytes e)) }
    ensures cut { IsErrOf result HeadFault.Cut → IfSome (followed_by intake.old (L.left link.old)) EndsInside }
    ensures unfinished { IsErrOf result HeadFault.ReadFault
        → GivesOnly IsUnfinished intake.old (L.left link.old) (L.left link.new) }

    // Bytes are taken from the front, and none are lost.
    ensures whole { KeepsWhole intake.old (L.left link.old) intake.new (L.left link.new) }
    ensures none_left { IfOk result (λ request. request ≡ None → IsAtEnd (L.left link.new)) }
    ensures cut_left { IsErrOf result HeadFault.Cut → IsAtEnd (L.left link.new) }

    // What is refused stays ahead, and after a failed read so does all that came, unless a body had begun.
    ensures stays { IfErr result (λ e. (e ≢ HeadFault.Cut) → (e ≢ HeadFault.ReadFault) → (e ≢ HeadFault.Memory)
        → ReadsAhead intake.old (L.left link.old) intake.new (L.left link.new)) }
    ensures kept { IsErrOf result HeadFault.ReadFault
        → ReadsAhead intake.old (L.left link.old) intake.new (L.left link.new)
        ⊎ GivesOnly EndsInBody intake.old (L.left link.old) (L.left link.new) }

    // It answers `ReadFault` exactly where a failed read was counted.
    ensures counted { L.failed_reads link.new ≡ reads_after result (L.failed_reads link.old) }
    ensures out { L.out link.new ≡ L.out link.old }
    ensures failed_writes { L.failed_writes link.new ≡ L.failed_writes link.old }
{
    let (start, size) = match find_head(intake, link) {
        Ok(Some(place)) => place,
        Ok(None) => return Ok(None),
        Err(fault) => return Err(fault),
    };
    let head = part(intake.bytes(), start, size);
    let (request, length) = match read_head(alloc, head) {
        Ok(read) => read,
        Err(fault) => return Err(fault),
    };
    intake.consume(start + size);
    match take_body(alloc, intake, link, length) {
        Ok(body) => Ok(Some(request.with_body(body))),
        Err(fault) => Err(fault),
    }
}
