ghost use Rattle.std.specs.Prelude.{◌≡◌, ◌+◌, ◌==◌, IfOk};
ghost use Rattle.std.specs.Cow.{cow_slice_items};
ghost use Rattle.std.specs.List.{before_first, list_any};
ghost use Rattle.percent_encoding.specs.Percent.{percent_decode};
ghost use Rattle.alto_answers.specs.Target.{question_mark, from_slash, without_host, path_of, raw_segment, segment};

use crate::bytes::place_of;
use percent_encoding::percent_decode;
use std::alloc::{AllocError, Global};
use std::borrow::CowSlice;

/// The path of a request target (RFC 9112, section 3.2): what stands before a question mark, without a host.
pub(crate) fn path_of(target: &[u8]) -> &[u8]
    ensures { result.now ≡ path_of target.now }
{
    without_host(before_query(target))
}

/// The segment of a path at this place, with its escapes read (RFC 3986, section 2.1): what stands between its slashes,
/// from 0, before the first. Empty where the path has no such place. Takes memory only where there is an escape.
pub(crate) fn segment(
    alloc: Global,
    path: &[u8],
    place: usize,
) -> Result<CowSlice<'_, u8>, AllocError>
    ensures { IfOk result (λ bytes. cow_slice_items bytes ≡ segment path.now place) }
{
    unescaped(alloc, raw_segment(path, place))
}

/// The same of the segment at this place and of the one behind it, in one pass over what stands before them.
pub(crate) fn two_segments(
    alloc: Global,
    path: &[u8],
    place: usize,
) -> Result<(CowSlice<'_, u8>, CowSlice<'_, u8>), AllocError>
    ensures first { IfOk result (λ both. cow_slice_items both.0 ≡ segment path.now place) }
    ensures second { IfOk result (λ both. cow_slice_items both.1 ≡ segment path.now (place + 1)) }
{
    let (first, second) = two_raw_segments(path, place);
    if !has_escape(path) {
        return Ok((CowSlice::Borrowed(first), CowSlice::Borrowed(second)));
    }
    Ok((unescaped(alloc, first)?, unescaped(alloc, second)?))
}

/// A text with its escapes read.
fn unescaped(alloc: Global, raw: &[u8]) -> Result<CowSlice<'_, u8>, AllocError>
    ensures { IfOk result (λ bytes. cow_slice_items bytes ≡ percent_decode raw.now) }
{
    if has_escape(raw) {
        return percent_decode(raw).into_cow(alloc);
    }
    Ok(CowSlice::Borrowed(raw))
}

/// Whether there is an escape.
fn has_escape(text: &[u8]) -> bool
    ensures { result ≡ list_any (λ b. b == 37) text.now }
{
    text.contains(&b'%')
}

/// What stands before a question mark. Most targets have none, and it costs less to see that than to search for it.
fn before_query(target: &[u8]) -> &[u8]
    ensures { result.now ≡ before_first (λ b. b == question_mark) target.now }
{
    if !target.contains(&b'?') {
        return target;
    }
    &target[..place_of(target, b'?')]
}

fn without_host(target: &[u8]) -> &[u8]
    ensures { result.now ≡ without_host target.now }
{
    match target.strip_prefix(b"http://") {
        Some(rest) => from_slash(rest),
        None => target,
    }
}

fn from_slash(text: &[u8]) -> &[u8]
    ensures { result.now ≡ from_slash text.now }
{
    &text[place_of(text, b'/')..]
}

fn raw_segment(path: &[u8], place: usize) -> &[u8]
    ensures { result.now ≡ raw_segment path.now place }
{
    path.split(|b| *b == b'/').nth(place).unwrap_or(&[])
}

/// The segment at this place and the one behind it.
fn two_raw_segments(path: &[u8], place: usize) -> (&[u8], &[u8])
    ensures first { result.0.now ≡ raw_segment path.now place }
    ensures second { result.1.now ≡ raw_segment path.now (place + 1) }
{
    let mut segments = path.split(|b| *b == b'/');
    let Some(first) = segments.nth(place) else {
        return (&[], &[]);
    };
    (first, segments.next().unwrap_or(&[]))
}
