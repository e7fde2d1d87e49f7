ghost use Rattle.std.specs.Prelude.{◌≡◌, ◌++◌, [], false, None, IfErr, IfOk, IfSome, OnErr, OnOk, List, ℕ, unwrap_or};
ghost use Rattle.alto_answers.specs.Answers.{client_of};
ghost use Rattle.alto_http.specs.Link.{count_after, extended, followed_by};
ghost use Rattle.alto_http.specs.Splits.{Begins};
ghost use Rattle.alto_serve.specs.Connections.{EmitsOnLink, Serves, state};
ghost use Rattle.alto_serve.specs.Events.{IsGrown};
ghost use Rattle.alto_serve.specs.Steps.{Becomes, Finishes, GoesOn, HasReply};
ghost use Rattle.alto_serve.specs.Steps.{reads_at, so_far, writes_at};
ghost use Rattle.alto_serve.specs.Turns.{setting_of};
ghost use Rattle.alto_serve.specs.Writing.{EndsAtWriteFault, IsOutTo};

use crate::clock::Clock;
use crate::end::End;
use crate::office::{Looks, Office};
use crate::refuse::{out_of_memory, refuse};
use crate::turns::answered;
use alto_addr::Addr;
use alto_answers::{Client, Routes, Side};
use alto_http::{Intake, Link, Request, WriteFault, read_request, write_all};
use alto_replies::Body;
use std::alloc::Global;
use text_buffer::TextBuffer;

/// How many requests a connection may bring.
const MOST_REQUESTS: u32 = 1_000_000;

/// The most bytes of a long reply that go out together, unless they are one part of its body.
const MOST_GATHERED: usize = 32768;

/// Serves a connection to its end: reads requests, answers each at the version that the office has then, and writes the
/// replies. The client's address is `peer`, where it is known. For the next edge a request waits at most `most_waits`
/// times.
/// The clause `served` says, for each end, what became of the requests that the bytes are, what was written, and how
/// often the office was looked at and waited. In clauses `clock.now` is the clock as it is, and no call.
pub fn serve_conn<F: Office, L: Link, C: Clock>(
    alloc: Global,
    office: &mut F,
    link: &mut L,
    clock: &C,
    side: Side,
    peer: Option<Addr>,
    most_waits: u32,
) -> End
    // Where the link tells its bytes, their requests have their turns, one after another, until the connection ends in
    // this way, and each walk along the edges that were given reaches the document.
    ensures served { Serves result (setting_of (client_of side peer) (C.tells clock.now) F.alone most_waits)
        (state (F.known office.old) (L.left link.old) (L.out link.old))
        (state (F.known office.new) (L.left link.new) (L.out link.new)) }

    ensures reads { L.failed_reads link.new ≡ reads_at result (L.failed_reads link.old) }
    ensures writes { L.failed_writes link.new ≡ writes_at result (L.failed_writes link.old) }
    ensures book { IsGrown (F.known office.new).seen (F.known office.old).seen }
    ensures backed { F.is_backed office.old → F.is_backed office.new }
    ensures clean { F.is_clean office.new → F.is_clean office.old }
{
    let Ok(routes) = Routes::new(alloc, side) else {
        return End::Memory;
    };
    let Ok(mut intake) = Intake::new(alloc) else {
        return End::Memory;
    };
    let client = Client { routes, peer };
    let mut text = TextBuffer::new(alloc);
    for _count in 0..MOST_REQUESTS {
        if let Some(end) = serve_next(
            alloc,
            &client,
            office,
            &mut intake,
            link,
            clock,
            most_waits,
            &mut text,
        ) {
            return end;
        }
    }
    End::Limit
}

/// Reads the next request and answers it, by a text that has the room of the replies before. Some end is the
/// connection's.
fn serve_next<F: Office, L: Link, C: Clock>(
    alloc: Global,
    client: &Client,
    office: &mut F,
    intake: &mut Intake,
    link: &mut L,
    clock: &C,
    most_waits: u32,
    text: &mut TextBuffer,
) -> Option<End>
    ensures on { result ≡ None → let setting = setting_of client.now (C.tells clock.now) F.alone most_waits in
        Becomes setting (GoesOn setting)
        (state (F.known office.old) (followed_by intake.old (L.left link.old)) (L.out link.old))
        (state (F.known office.new) (followed_by intake.new (L.left link.new)) (L.out link.new)) }
    ensures ended { IfSome result (λ end. let setting = setting_of client.now (C.tells clock.now) F.alone most_waits in
        Becomes setting (Finishes end setting)
        (state (F.known office.old) (followed_by intake.old (L.left link.old)) (L.out link.old))
        (state (F.known office.new) (L.left link.new) (L.out link.new))) }

    ensures reads { L.failed_reads link.new ≡ so_far reads_at result (L.failed_reads link.old) }
    ensures writes { L.failed_writes link.new ≡ so_far writes_at result (L.failed_writes link.old) }
    ensures book { IsGrown (F.known office.new).seen (F.known office.old).seen }
    ensures backed { F.is_backed office.old → F.is_backed office.new }
    ensures clean { F.is_clean office.new → F.is_clean office.old }
{
    match read_request(alloc, intake, link) {
        Ok(Some(request)) => respond(
            alloc, client, office, link, clock, &request, most_waits, text,
        ),
        Ok(None) => Some(End::Closed),
        Err(fault) => Some(refuse(alloc, link, fault)),
    }
}

/// Answers a request. Some end is the connection's.
fn respond<F: Office, L: Link, C: Clock>(
    alloc: Global,
    client: &Client,
    office: &mut F,
    link: &mut L,
    clock: &C,
    request: &Request,
    most_waits: u32,
    text: &mut TextBuffer,
) -> Option<End>
    ensures stays { result ≡ None → request.now.close ≡ false }
    ensures on { result ≡ None → let setting = setting_of client.now (C.tells clock.now) F.alone most_waits in
        EmitsOnLink setting (HasReply setting request.now)
        (state (F.known office.old) (L.left link.old) (L.out link.old))
        (state (F.known office.new) (L.left link.new) (L.out link.new)) }
    ensures ended { IfSome result (λ end. let setting = setting_of client.now (C.tells clock.now) F.alone most_waits in
        let after = state (F.known office.new) (L.left link.new) (L.out link.new) in
        (rest behind : List ℕ) → Begins rest request.now behind
        → EmitsOnLink setting (Finishes end setting rest after)
        (state (F.known office.old) (L.left link.old) (L.out link.old)) after) }
    ensures left { L.left link.new ≡ L.left link.old }

    ensures reads { L.failed_reads link.new ≡ so_far reads_at result (L.failed_reads link.old) }
    ensures writes { L.failed_writes link.new ≡ so_far writes_at result (L.failed_writes link.old) }
    ensures book { IsGrown (F.known office.new).seen (F.known office.old).seen }
    ensures backed { F.is_backed office.old → F.is_backed office.new }
    ensures clean { F.is_clean office.new → F.is_clean office.old }
{
    let Ok(rest) = answered(alloc, client, office, clock, request, most_waits, text) else {
        return Some(out_of_memory(link));
    };
    match write_text(link, text, rest) {
        Err(_) => Some(End::WriteFault),
        Ok(()) if request.close => Some(End::Closed),
        Ok(()) => None,
    }
}

/// Puts out a text, and then a body where there is one. After an `Err` only a part of their bytes is out, from their
/// beginning on. The text keeps its room where it stands alone.
fn write_text<L: Link>(
    link: &mut L,
    text: &mut TextBuffer,
    rest: Option<Body>,
) -> Result<(), WriteFault>
    ensures ok { OnOk result (L.out link.new ≡ extended (L.out link.old) (text.old ++ unwrap_or rest [])) }
    ensures err { OnErr result
        (EndsAtWriteFault (L.out link.old) (text.old ++ unwrap_or rest []) (L.out link.new)) }
    ensures counted { L.failed_writes link.new ≡ count_after result (L.failed_writes link.old) }
    ensures left { L.left link.new ≡ L.left link.old }
    ensures failed_reads { L.failed_reads link.new ≡ L.failed_reads link.old }
{
    match rest {
        Some(rest) => write_parts(link, text.take_bytes(), &rest),
        None => write_all(link, text.bytes()),
    }
}

/// Puts out bytes, and then those of a body: small parts of it together, large ones alone. After an `Err` only a part
/// of them is out, from their beginning on. Takes no memory but to gather small parts, and does without where there is
/// none.
fn write_parts<L: Link>(link: &mut L, front: Vec<u8>, rest: &Body) -> Result<(), WriteFault>
    ensures ok { OnOk result (L.out link.new ≡ extended (L.out link.old) (front.items ++ rest.now)) }
    ensures err { OnErr result (EndsAtWriteFault (L.out link.old) (front.items ++ rest.now) (L.out link.new)) }
    ensures counted { L.failed_writes link.new ≡ count_after result (L.failed_writes link.old) }
    ensures left { L.left link.new ≡ L.left link.old }
    ensures failed_reads { L.failed_reads link.new ≡ L.failed_reads link.old }
{
    let mut parts = rest.parts();
    let mut gathered = front;
    while let Some(part) = parts.next() {
        gathered = write_behind(link, gathered, part)?;
    }
    write_all(link, &gathered)
}

/// Puts a part behind bytes that aren't out yet, and gives those of both that aren't out then.
fn write_behind<L: Link>(
    link: &mut L,
    gathered: Vec<u8>,
    part: &[u8],
) -> Result<Vec<u8>, WriteFault>
    ensures ok { IfOk result (λ left.
        IsOutTo (L.out link.old) (gathered.items ++ part.now) (L.out link.new) left.items) }
    ensures err { OnErr result (EndsAtWriteFault (L.out link.old) (gathered.items ++ part.now) (L.out link.new)) }
    ensures counted { L.failed_writes link.new ≡ count_after result (L.failed_writes link.old) }
    ensures left { L.left link.new ≡ L.left link.old }
    ensures failed_reads { L.failed_reads link.new ≡ L.failed_reads link.old }
{
    let mut left = match together(gathered, part) {
        Ok(both) => return Ok(both),
        Err(gathered) => gathered,
    };
    write_all(link, &left)?;
    left.clear();
    match together(left, part) {
        Ok(part) => Ok(part),
        Err(none) => {
            write_all(link, part)?;
            Ok(none)
        }
    }
}

/// Bytes with a part behind them, where both are few enough to go out together and there is memory for it; else the
/// bytes alone.
fn together(bytes: Vec<u8>, part: &[u8]) -> Result<Vec<u8>, Vec<u8>>
    ensures ok { IfOk result (λ both. both.items ≡ bytes.items ++ part.now) }
    ensures err { IfErr result (λ same. same.items ≡ bytes.items) }
{
    let mut both = bytes;
    let room = MOST_GATHERED.saturating_sub(both.len());
    if part.len() <= room && both.extend_from_slice(part).is_ok() {
        return Ok(both);
    }
    Err(both)
}
