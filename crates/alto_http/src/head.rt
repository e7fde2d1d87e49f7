//! The checks of a head, and the request that it stands for.
ghost use Rattle.std.specs.Prelude.{◌≡◌, ◌≢◌, ◌≤◌, nat_lt, length, map, All, IfSome, IfNone, IfOk, IfErr};
ghost use Rattle.std.specs.Option.{option_copied, option_map};
ghost use Rattle.httparse.specs.Spans.{IsHeaderWithin, IsWithin, IsRequestWithin, IsRequestOf, header_bytes};
ghost use Rattle.httparse.specs.Spans.{span_bytes};
ghost use Rattle.alto_http.specs.Head.{line_feeds};
ghost use Rattle.alto_http.specs.Request.{verb_of, request_from, body_length, HasNoRequestWithin, Passes, FailsBy};

use crate::fault::HeadFault;
use crate::fields::{closes, first_value, length_of_body};
use crate::request::{Request, Verb};
use crate::scan::line_feeds;
use httparse::Status;
use httparse::spans::{EMPTY_HEADER_SPAN, HeaderSpan, RequestSpans, parse_request};
use std::alloc::{AllocError, Global};

/// The most lines that a head has.
const LINES: usize = 66;

/// The most fields that a head has: the other two lines are the request line and the empty one.
const FIELDS: usize = 64;

/// So many fields most heads have at most. A short array for them is cleared for each head.
const FEW_FIELDS: usize = 8;

/// The request that the bytes of a head stand for, without its body, and the length of that body. A head that isn't
/// read with few fields is read once more.
pub(crate) fn read_head(alloc: Global, head: &[u8]) -> Result<(Request, usize), HeadFault>
    ensures ok { IfOk result (λ r. Passes head.now r.0 r.1) }
    ensures err { IfErr result (λ e. e ≢ HeadFault.Memory → FailsBy head.now e) }
{
    if has_too_many_lines(head) {
        return Err(HeadFault::TooLarge);
    }
    let mut spans = [EMPTY_HEADER_SPAN; FEW_FIELDS];
    match parse_head(head, &mut spans) {
        Some(line) => sized_request(alloc, head, &line, &spans),
        None => read_long_head(alloc, head),
    }
}

/// Only a head of more bytes can have more lines.
fn has_too_many_lines(head: &[u8]) -> bool
    ensures { result ≡ nat_lt LINES (line_feeds head.now) }
{
    head.len() > LINES && line_feeds(head) > LINES
}

fn read_long_head(alloc: Global, head: &[u8]) -> Result<(Request, usize), HeadFault>
    requires { line_feeds head.now ≤ LINES }
    ensures ok { IfOk result (λ r. Passes head.now r.0 r.1) }
    ensures err { IfErr result (λ e. e ≢ HeadFault.Memory → FailsBy head.now e) }
{
    let mut spans = [EMPTY_HEADER_SPAN; FIELDS];
    match parse_head(head, &mut spans) {
        Some(line) => sized_request(alloc, head, &line, &spans),
        None => Err(HeadFault::BadHead),
    }
}

fn parse_head(head: &[u8], spans: &mut [HeaderSpan]) -> Option<RequestSpans>
    ensures within { IfSome result (IsRequestWithin head.now spans.new) }
    ensures found { IfSome result (IsRequestOf head.now spans.new) }
    ensures none { IfNone result (HasNoRequestWithin (length spans.old) head.now) }
{
    match parse_request(head, spans) {
        Ok(Status::Complete(line)) => Some(line),
        _ => None,
    }
}

/// The request of a head that was read as this line and the fields of these spans, and the length of its body.
fn sized_request(
    alloc: Global,
    head: &[u8],
    line: &RequestSpans,
    spans: &[HeaderSpan],
) -> Result<(Request, usize), HeadFault>
    requires lines { line_feeds head.now ≤ LINES }
    requires within { IsRequestWithin head.now spans.now line.now }
    requires found { IsRequestOf head.now spans.now line.now }
    ensures ok { IfOk result (λ r. Passes head.now r.0 r.1) }
    ensures err { IfErr result (λ e. e ≢ HeadFault.Memory → FailsBy head.now e) }
{
    let fields = &spans[..line.headers];
    let size = body_length(head, fields, verb_of(line.method.of(head)))?;
    let request = request_from(alloc, head, line, fields)?;
    Ok((request, size))
}

fn verb_of(method: &[u8]) -> Verb
    ensures { result ≡ verb_of method.now }
{
    if method == b"GET".as_slice() {
        Verb::Get
    } else if method == b"POST".as_slice() {
        Verb::Post
    } else {
        Verb::Other
    }
}

fn body_length(bytes: &[u8], fields: &[HeaderSpan], verb: Verb) -> Result<usize, HeadFault>
    requires { All (IsHeaderWithin (length bytes.now)) fields.now }
    ensures { result ≡ body_length verb (map (header_bytes bytes.now) fields.now) }
{
    if first_value(bytes, fields, b"transfer-encoding").is_some() {
        return Err(HeadFault::Coded);
    }
    length_of_body(bytes, fields, matches!(verb, Verb::Post))
}

fn request_from(
    alloc: Global,
    head: &[u8],
    line: &RequestSpans,
    fields: &[HeaderSpan],
) -> Result<Request, AllocError>
    requires fields { All (IsHeaderWithin (length head.now)) fields.now }
    requires method { IsWithin (length head.now) line.now.method }
    requires target { IsWithin (length head.now) line.now.path }
    ensures { IfOk result (λ request. request ≡ request_from (span_bytes head.now line.now.method)
        (span_bytes head.now line.now.path) line.now.version (map (header_bytes head.now) fields.now)) }
{
    Ok(Request {
        verb: verb_of(line.method.of(head)),
        target: line.path.of(head).to_vec(alloc)?,
        content_type: owned(alloc, first_value(head, fields, b"content-type"))?,
        accept: owned(alloc, first_value(head, fields, b"accept"))?,
        host: owned(alloc, first_value(head, fields, b"host"))?,
        close: closes(head, fields, line.version),
        body: Vec::new(alloc),
    })
}

fn owned(alloc: Global, value: Option<&[u8]>) -> Result<Option<Vec<u8>>, AllocError>
    ensures { IfOk result (λ copy. option_map (λ v. v.items) copy ≡ option_copied value.entry) }
{
    match value {
        Some(bytes) => Ok(Some(bytes.to_vec(alloc)?)),
        None => Ok(None),
    }
}
