ghost use Rattle.std.specs.Prelude.{◌≡◌, IsTrue, ◌&&◌, nat_le, length};
ghost use Rattle.alto_answers.specs.Authority.{is_host_byte, is_address_byte, is_name, is_address, is_port};
ghost use Rattle.alto_answers.specs.Authority.{follows_host, follows_address, is_named, is_bracketed, is_authority};
ghost use Rattle.alto_answers.specs.Authority.{authority_in, authority_of};

use crate::bytes::place_of;
use alto_http::Request;
use std::str;

/// The authority where a request names none.
const LOCAL: &str = "localhost";

/// The longest Host field that counts.
const HOST_BYTES: usize = 255;

/// The authority that the Host field of a request names (RFC 3986, section 3.2): a host, and perhaps a port, in 255
/// bytes at most. Else it is `localhost`.
#[tactic(auto, unfolding(crate::specs::Authority::authority_of))]
pub(crate) fn authority_of(request: &Request) -> &str
    ensures { result.now ≡ authority_of request.now.host }
{
    match &request.host {
        Some(host) => authority_in(host),
        None => LOCAL,
    }
}

fn authority_in(host: &[u8]) -> &str
    ensures { result.now ≡ authority_in host.now }
{
    if HOST_BYTES < host.len() || !is_authority(host) {
        return LOCAL;
    }
    match str::from_utf8(host) {
        Ok(host) => host,
        Err(_) => unreachable!(),
    }
}

#[tactic(auto, unfolding(crate::specs::Authority::is_authority))]
fn is_authority(text: &[u8]) -> bool
    ensures { result ≡ is_authority text.now }
{
    match text {
        [] => false,
        [b'[', rest @ ..] => is_bracketed(rest),
        _ => is_named(text),
    }
}

#[tactic(auto, unfolding(crate::specs::Authority::is_bracketed))]
fn is_bracketed(text: &[u8]) -> bool
    ensures { result ≡ is_bracketed text.now }
{
    let end = place_of(text, b']');
    is_address(&text[..end]) && follows_address(&text[end..])
}

#[tactic(auto, unfolding(crate::specs::Authority::is_named))]
fn is_named(text: &[u8]) -> bool
    ensures { result ≡ is_named text.now }
{
    let end = place_of(text, b':');
    is_name(&text[..end]) && follows_host(&text[end..])
}

#[tactic(auto, unfolding(crate::specs::Authority::follows_address))]
fn follows_address(text: &[u8]) -> bool
    ensures { result ≡ follows_address text.now }
{
    match text {
        [b']', rest @ ..] => follows_host(rest),
        _ => false,
    }
}

#[tactic(auto, unfolding(crate::specs::Authority::follows_host))]
fn follows_host(text: &[u8]) -> bool
    ensures { result ≡ follows_host text.now }
{
    match text {
        [] => true,
        [b':', port @ ..] => is_port(port),
        _ => false,
    }
}

#[tactic(auto, unfolding(crate::specs::Authority::is_name))]
fn is_name(text: &[u8]) -> bool
    ensures { result ≡ is_name text.now }
{
    !text.is_empty() && text.iter().all(|byte| is_host_byte(*byte))
}

#[tactic(auto, unfolding(crate::specs::Authority::is_address))]
fn is_address(text: &[u8]) -> bool
    ensures { result ≡ is_address text.now }
{
    2 <= text.len() && text.len() <= 45 && text.iter().all(|byte| is_address_byte(*byte))
}

#[tactic(auto, unfolding(crate::specs::Authority::is_port))]
fn is_port(text: &[u8]) -> bool
    ensures { result ≡ is_port text.now }
{
    1 <= text.len() && text.len() <= 5 && text.iter().all(|byte| byte.is_ascii_digit())
}

fn is_host_byte(byte: u8) -> bool
    ensures { result ≡ is_host_byte byte }
{
    byte.is_ascii_alphanumeric() || byte == b'-' || byte == b'.' || byte == b'_'
}

fn is_address_byte(byte: u8) -> bool
    ensures { result ≡ is_address_byte byte }
{
    byte.is_ascii_hexdigit() || byte == b':' || byte == b'.'
}
