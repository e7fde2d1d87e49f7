ghost use Rattle.std.specs.Prelude.{◌≡◌, ◌==◌};
ghost use Rattle.std.specs.List.{before_first};
ghost use Rattle.std.specs.Str.{str_to_ascii_lowercase};
ghost use Rattle.alto_rows.specs.Order.{same_name};
ghost use Rattle.alto_answers.specs.Forms.{semicolon, media_type, has_type};

use crate::bytes::{place_of, trim};
use alto_http::Request;

/// Whether a request has a content type, and it is this media type (RFC 9110, section 8.3): neither parameters nor case
/// count.
pub(crate) fn has_type(request: &Request, wanted: &[u8]) -> bool
    requires { str_to_ascii_lowercase wanted.now ≡ wanted.now }
    ensures { result ≡ has_type wanted.now request.now.content_type }
{
    match &request.content_type {
        Some(value) => names(value, wanted),
        None => false,
    }
}

fn names(value: &[u8], wanted: &[u8]) -> bool
    requires { str_to_ascii_lowercase wanted.now ≡ wanted.now }
    ensures { result ≡ same_name (media_type value.now) wanted.now }
{
    is_type(trim(before_parameters(value)), wanted)
}

/// Whether a text is this media type. Most clients write it in lower case.
fn is_type(text: &[u8], wanted: &[u8]) -> bool
    requires { str_to_ascii_lowercase wanted.now ≡ wanted.now }
    ensures { result ≡ same_name (str_to_ascii_lowercase text.now) wanted.now }
{
    text == wanted || text.eq_ignore_ascii_case(wanted)
}

pub(crate) fn before_parameters(value: &[u8]) -> &[u8]
    ensures { result.now ≡ before_first (λ b. b == semicolon) value.now }
{
    &value[..place_of(value, b';')]
}
