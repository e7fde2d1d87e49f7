//! Reads until a head, or a body, is there whole.
ghost use Rattle.std.specs.Prelude.{◌≡◌, ◌<◌, ◌≤◌, ◌⊎◌, ◌+◌, ℕ, length, take, drop, List, ◌++◌, MatchOption, IfOk};
ghost use Rattle.std.specs.Prelude.{IfErr, IsErrOf, OnOk, OnErr, IfSome};
ghost use Rattle.alto_http.specs.Head.{breaks_before, IsHeadEnd};
ghost use Rattle.alto_http.specs.Intake.{KeepsWhole, ReadsAhead, GivesBehind, reads_after};
ghost use Rattle.alto_http.specs.Link.{followed_by, IsAtEnd};
ghost use Rattle.alto_http.specs.Receive.{StartFails, EndFails, HeadFails};
ghost use Rattle.alto_http.specs.Splits.{IsHeadAt, IsBlank};

use crate::fault::HeadFault;
use crate::intake::{HEAD_BYTES, Intake};
use crate::link::{Link, read_behind};
use crate::scan::{breaks_before, head_end};
use std::alloc::Global;

/// Reads until a byte other than CR and LF is ahead, and answers how many of those stand before it:
/// none at the end of the input.
fn find_start<L: Link>(intake: &mut Intake, link: &mut L) -> Result<Option<usize>, HeadFault>
    ensures ahead { ReadsAhead intake.old (L.left link.old) intake.new (L.left link.new) }
    ensures ok { IfOk result (λ r. MatchOption r (IsBlank intake.new × IsAtEnd (L.left link.new))
        (λ start. (start ≡ breaks_before intake.new) × (start < length intake.new))) }
    ensures err { IfErr result (λ e. StartFails e intake.new) }

    ensures counted { L.failed_reads link.new ≡ reads_after result (L.failed_reads link.old) }
    ensures out { L.out link.new ≡ L.out link.old }
    ensures failed_writes { L.failed_writes link.new ≡ L.failed_writes link.old }
{
    let mut passed = 0;
    'pieces: loop {
        passed = breaks_before(intake.bytes(), passed);
        let ahead = intake.bytes().len();
        if passed < ahead {
            return Ok(Some(passed));
        }
        if ahead == HEAD_BYTES {
            return Err(HeadFault::TooLarge);
        }
        if intake.fill(link)? == 0 {
            return Ok(None);
        }
    }
}

/// Reads until the head that begins behind `start` bytes is ahead whole, and answers its length.
fn find_end<L: Link>(intake: &mut Intake, link: &mut L, start: usize) -> Result<usize, HeadFault>
    requires { start ≤ length intake.old }
    ensures ahead { ReadsAhead intake.old (L.left link.old) intake.new (L.left link.new) }
    ensures ok { IfOk result (λ size. IsHeadEnd (drop start intake.new) size × (start + size ≤ HEAD_BYTES)) }
    ensures err { IfErr result (λ e. EndFails e start intake.new (L.left link.new)) }

    ensures counted { L.failed_reads link.new ≡ reads_after result (L.failed_reads link.old) }
    ensures out { L.out link.new ≡ L.out link.old }
    ensures failed_writes { L.failed_writes link.new ≡ L.failed_writes link.old }
{
    let mut looked = 0;
    'pieces: loop {
        let head = &intake.bytes()[start..];
        if let Some(end) = head_end(head, looked) {
            return Ok(end);
        }
        looked = head.len();
        if intake.bytes().len() == HEAD_BYTES {
            return Err(HeadFault::TooLarge);
        }
        if intake.fill(link)? == 0 {
            return Err(HeadFault::Cut);
        }
    }
}

/// Reads until a head is ahead whole, and answers how many CR and LF bytes stand before it, and its
/// length: none at the end of the input.
pub(crate) fn find_head<L: Link>(
    intake: &mut Intake,
    link: &mut L,
) -> Result<Option<(usize, usize)>, HeadFault>
    ensures ahead { ReadsAhead intake.old (L.left link.old) intake.new (L.left link.new) }
    ensures ok { IfOk result (λ r. MatchOption r (IsBlank intake.new × IsAtEnd (L.left link.new))
        (λ place. IsHeadAt intake.new place.0 place.1)) }
    ensures err { IfErr result (λ e. HeadFails e intake.new (L.left link.new)) }

    ensures counted { L.failed_reads link.new ≡ reads_after result (L.failed_reads link.old) }
    ensures out { L.out link.new ≡ L.out link.old }
    ensures failed_writes { L.failed_writes link.new ≡ L.failed_writes link.old }
{
    let start = match find_start(intake, link) {
        Ok(Some(start)) => start,
        Ok(None) => return Ok(None),
        Err(fault) => return Err(fault),
    };
    match find_end(intake, link, start) {
        Ok(size) => Ok(Some((start, size))),
        Err(fault) => Err(fault),
    }
}

/// Reads behind the first `start` bytes until `into` is full.
fn read_full<L: Link>(link: &mut L, into: &mut [u8], start: usize) -> Result<(), HeadFault>
    requires { start ≤ length into.old }
    ensures front { take start into.new ≡ take start into.old }
    ensures ok { OnOk result (L.left link.old ≡ followed_by (drop start into.new) (L.left link.new)) }
    ensures err { OnErr result ((taken : List ℕ) × (start + length taken < length into.new)
        × (L.left link.old ≡ followed_by taken (L.left link.new))) }
    ensures cut { IsErrOf result HeadFault.Cut → IsAtEnd (L.left link.new) }
    ensures causes { IfErr result (λ e. (e ≡ HeadFault.Cut) ⊎ (e ≡ HeadFault.ReadFault)) }

    ensures counted { L.failed_reads link.new ≡ reads_after result (L.failed_reads link.old) }
    ensures out { L.out link.new ≡ L.out link.old }
    ensures failed_writes { L.failed_writes link.new ≡ L.failed_writes link.old }
{
    let mut at = start;
    'pieces: while at < into.len() {
        let count = read_behind(link, into, at)?;
        if count == 0 {
            return Err(HeadFault::Cut);
        }
        at += count;
    }
    Ok(())
}

/// Fills `into` from the front of what was read ahead, and then from the link.
fn fill_body<L: Link>(intake: &mut Intake, link: &mut L, into: &mut [u8]) -> Result<(), HeadFault>
    ensures ok { OnOk result (followed_by intake.old (L.left link.old)
        ≡ followed_by (into.new ++ intake.new) (L.left link.new)) }
    ensures err { OnErr result (KeepsWhole intake.old (L.left link.old) intake.new (L.left link.new)) }
    ensures cut { IsErrOf result HeadFault.Cut → IsAtEnd (L.left link.new)
        × IfSome (followed_by intake.old (L.left link.old)) (λ bytes. length bytes < length into.new) }
    ensures short { OnErr result (GivesBehind (λ given. length given < length into.new)
        intake.old (L.left link.old) (L.left link.new)) }
    ensures causes { IfErr result (λ e. (e ≡ HeadFault.Cut) ⊎ (e ≡ HeadFault.ReadFault)) }

    ensures counted { L.failed_reads link.new ≡ reads_after result (L.failed_reads link.old) }
    ensures out { L.out link.new ≡ L.out link.old }
    ensures failed_writes { L.failed_writes link.new ≡ L.failed_writes link.old }
{
    let ahead = intake.hand_over(into);
    read_full(link, into, ahead)
}

/// Takes a body of `size` bytes from the front, into room that is reserved once. An empty one takes no memory.
pub(crate) fn take_body<L: Link>(
    alloc: Global,
    intake: &mut Intake,
    link: &mut L,
    size: usize,
) -> Result<Vec<u8>, HeadFault>
    ensures size { IfOk result (λ body. length body.items ≡ size) }
    ensures ok { IfOk result (λ body. followed_by intake.old (L.left link.old)
        ≡ followed_by (body.items ++ intake.new) (L.left link.new)) }
    ensures err { OnErr result (KeepsWhole intake.old (L.left link.old) intake.new (L.left link.new)) }
    ensures cut { IsErrOf result HeadFault.Cut → IsAtEnd (L.left link.new)
        × IfSome (followed_by intake.old (L.left link.old)) (λ bytes. length bytes < size) }
    ensures short { IsErrOf result HeadFault.ReadFault
        → GivesBehind (λ given. length given < size) intake.old (L.left link.old) (L.left link.new) }
    ensures causes { IfErr result (λ e. (e ≡ HeadFault.Cut) ⊎ (e ≡ HeadFault.ReadFault) ⊎ (e ≡ HeadFault.Memory)) }

    ensures counted { L.failed_reads link.new ≡ reads_after result (L.failed_reads link.old) }
    ensures out { L.out link.new ≡ L.out link.old }
    ensures failed_writes { L.failed_writes link.new ≡ L.failed_writes link.old }
{
    if size == 0 {
        return Ok(Vec::new(alloc));
    }
    let mut body = vec![in alloc; 0; size]?;
    fill_body(intake, link, &mut body)?;
    Ok(body)
}
