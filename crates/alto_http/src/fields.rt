//! What the fields of a head say.
ghost use Rattle.std.specs.Prelude.{◌≡◌, ◌<◌, ◌+◌, length, map, reverse, All, IsTrue, IfOk, IfErr, min, take, codes};
ghost use Rattle.std.specs.Str.Parse.{digits_value};
ghost use Rattle.std.specs.Option.{option_copied, option_to_list};
ghost use Rattle.httparse.specs.Spans.{IsHeaderWithin, header_bytes};
ghost use Rattle.httparse.specs.Grammar.{skip_ows, trim_ows};
ghost use Rattle.alto_http.specs.Fields.{is_named, values_of, first, is_close, lists_close, closes, length_said};
ghost use Rattle.alto_http.specs.Fields.{length_of_body, is_decimal};

use crate::fault::HeadFault;
use httparse::spans::HeaderSpan;

/// The longest body that is taken.
const BODY_BYTES: usize = 4_194_304;

fn is_named(bytes: &[u8], field: &HeaderSpan, name: &[u8]) -> bool
    requires { IsHeaderWithin (length bytes.now) field.now }
    ensures { result ≡ is_named name.now (header_bytes bytes.now field.now) }
{
    field.name.of(bytes).eq_ignore_ascii_case(name)
}

/// The value of the first field of this name.
pub(crate) fn first_value<'b>(
    bytes: &'b [u8],
    fields: &[HeaderSpan],
    name: &[u8],
) -> Option<&'b [u8]>
    requires { All (IsHeaderWithin (length bytes.now)) fields.now }
    ensures { option_copied result ≡ first (values_of name.now (map (header_bytes bytes.now) fields.now)) }
{
    for field in fields {
        if is_named(bytes, field, name) {
            return Some(field.value.of(bytes));
        }
    }
    None
}

fn trim_start(mut bytes: &[u8]) -> &[u8]
    ensures { result.now ≡ skip_ows bytes.now }
{
    while let [b' ' | b'\t', rest @ ..] = bytes {
        bytes = rest;
    }
    bytes
}

fn trim_end(mut bytes: &[u8]) -> &[u8]
    ensures { result.now ≡ reverse (skip_ows (reverse bytes.now)) }
{
    while let [rest @ .., b' ' | b'\t'] = bytes {
        bytes = rest;
    }
    bytes
}

/// The bytes without the spaces and tabs at both ends.
fn trim(bytes: &[u8]) -> &[u8]
    ensures { result.now ≡ trim_ows bytes.now }
{
    trim_end(trim_start(bytes))
}

fn is_close(item: &[u8]) -> bool
    ensures { result ≡ is_close item.now }
{
    trim(item).eq_ignore_ascii_case(b"close")
}

fn lists_close(value: &[u8]) -> bool
    ensures { result ≡ lists_close value.now }
{
    value.split(|b| *b == b',').any(|item| is_close(item))
}

/// Whether the connection closes after the answer: HTTP/1.0, or some Connection field lists `close`.
pub(crate) fn closes(bytes: &[u8], fields: &[HeaderSpan], minor: u8) -> bool
    requires { All (IsHeaderWithin (length bytes.now)) fields.now }
    ensures { result ≡ closes minor (map (header_bytes bytes.now) fields.now) }
{
    if minor == 0 {
        return true;
    }
    for field in fields {
        if is_named(bytes, field, b"connection") && lists_close(field.value.of(bytes)) {
            return true;
        }
    }
    false
}

/// Whether the value is 1 decimal digit or more, and nothing else.
pub fn is_decimal(value: &[u8]) -> bool
    ensures { result ≡ is_decimal value.now }
{
    !value.is_empty() && value.iter().all(|b| b.is_ascii_digit())
}

/// The length that a Content-Length says: at most `BODY_BYTES`.
fn length_said(value: &[u8]) -> Result<usize, HeadFault>
    ensures { result ≡ length_said value.now }
{
    if !is_decimal(value) {
        return Err(HeadFault::BadHead);
    }
    let size = capped(value);
    if size > BODY_BYTES {
        return Err(HeadFault::BodyTooLarge);
    }
    Ok(size)
}

/// The number that the digits write, or `BODY_BYTES + 1` where that is less.
fn capped(digits: &[u8]) -> usize
    requires { IsTrue (is_decimal digits.now) }
    ensures { result ≡ min (digits_value 10 digits.now) (BODY_BYTES + 1) }
{
    let mut size = 0;
    for digit in digits {
        size = (size * 10 + usize::from(*digit - b'0')).min(BODY_BYTES + 1);
    }
    size
}

/// The value of the one field of this name, where there is one.
fn only_value<'b>(
    bytes: &'b [u8],
    fields: &[HeaderSpan],
    name: &[u8],
) -> Result<Option<&'b [u8]>, HeadFault>
    requires { All (IsHeaderWithin (length bytes.now)) fields.now }
    ensures only { IfOk result (λ found. option_to_list (option_copied found)
        ≡ values_of name.now (map (header_bytes bytes.now) fields.now)) }
    ensures several { IfErr result (λ e. (e ≡ HeadFault.BadHead)
        × (1 < length (values_of name.now (map (header_bytes bytes.now) fields.now)))) }
{
    let mut found = None;
    for field in fields {
        if is_named(bytes, field, name) {
            if found.is_some() {
                return Err(HeadFault::BadHead);
            }
            found = Some(field.value.of(bytes));
        }
    }
    Ok(found)
}

/// The length of the body of a request with these fields.
pub(crate) fn length_of_body(
    bytes: &[u8],
    fields: &[HeaderSpan],
    is_post: bool,
) -> Result<usize, HeadFault>
    requires { All (IsHeaderWithin (length bytes.now)) fields.now }
    ensures { result ≡ length_of_body is_post
        (values_of (codes "content-length") (map (header_bytes bytes.now) fields.now)) }
{
    match only_value(bytes, fields, b"content-length") {
        Err(fault) => Err(fault),
        Ok(Some(value)) => length_said(value),
        Ok(None) if is_post => Err(HeadFault::NoLength),
        Ok(None) => Ok(0),
    }
}
