ghost use Rattle.std.specs.Prelude.{◌≡◌, ◌≢◌, ◌∷◌, ◌≤◌, ℕ, List, length, drop, MatchOption};
ghost use Rattle.alto_addr.specs.Tokens.{IsLength};
ghost use Rattle.alto_addr.specs.Place.{IsLongestFront};
ghost use Rattle.alto_addr.specs.Fronts.{Octets, TailGroups, TailUpTo, HeadGroups, ColonHex, Address};

use crate::token::{group_front, length_front, octet_front};

/// What stands behind the byte, where the text begins with it.
fn behind(text: &[u8], byte: u8) -> Option<&[u8]>
    ensures { MatchOption result ((rest : List ℕ) → text.now ≢ byte ∷ rest) (λ rest. text.now ≡ byte ∷ rest.now) }
{
    match text {
        [first, rest @ ..] if *first == byte => Some(rest),
        _ => None,
    }
}

/// The same behind the first `n` bytes.
pub(crate) fn behind_front(text: &[u8], n: usize, byte: u8) -> Option<&[u8]>
    requires { n ≤ length text.now }
    ensures { MatchOption result ((rest : List ℕ) → drop n text.now ≢ byte ∷ rest)
        (λ rest. drop n text.now ≡ byte ∷ rest.now) }
{
    behind(&text[n..], byte)
}

/// How many bytes the longest front has that begins a number and `more` numbers, with a dot before each.
fn octets_front(text: &[u8], more: usize) -> usize
    ensures { IsLongestFront (Octets more) text.now result }
{
    let octet = octet_front(text);
    if more == 0 {
        return octet;
    }
    if octet == 0 {
        return 0;
    }
    match behind_front(text, octet, b'.') {
        Some(rest) => octet + (1 + octets_front(rest, more - 1)),
        None => octet,
    }
}

/// How many bytes the longest front has that begins a group and up to `more` groups behind `::`.
fn tail_front(text: &[u8], more: usize) -> usize
    ensures { IsLongestFront (TailGroups more) text.now result }
{
    let group = group_front(text);
    if more == 0 {
        return group;
    }
    let octets = octets_front(text, 3);
    if group == 0 {
        return octets;
    }
    match behind_front(text, group, b':') {
        Some(rest) => octets.max(group + (1 + tail_front(rest, more - 1))),
        None => octets.max(group),
    }
}

/// How many bytes the longest front has that begins up to so many groups behind `::`.
fn tail_up_to_front(text: &[u8], groups: usize) -> usize
    ensures { IsLongestFront (TailUpTo groups) text.now result }
{
    if groups == 0 {
        0
    } else {
        tail_front(text, groups - 1)
    }
}

/// How many bytes the longest front has that begins an IPv4 text in place of the last two groups.
fn last_octets_front(text: &[u8], more: usize) -> usize
    ensures last { more ≡ 1 → IsLongestFront (Octets 3) text.now result }
    ensures none { more ≢ 1 → result ≡ 0 }
{
    if more == 1 { octets_front(text, 3) } else { 0 }
}

/// How many bytes the longest front has that begins a group and `more` groups, for some of which `::` may stand.
fn head_front(text: &[u8], more: usize) -> usize
    ensures { IsLongestFront (HeadGroups more) text.now result }
{
    let group = group_front(text);
    if more == 0 {
        return group;
    }
    let octets = last_octets_front(text, more);
    if group == 0 {
        return octets;
    }
    let Some(rest) = behind_front(text, group, b':') else {
        return octets.max(group);
    };
    match behind(rest, b':') {
        Some(tail) => octets.max(group + (2 + tail_up_to_front(tail, more - 1))),
        None => octets.max(group + (1 + head_front(rest, more - 1))),
    }
}

/// How many bytes the longest front has that begins an IPv6 address.
fn colon_hex_front(text: &[u8]) -> usize
    ensures { IsLongestFront ColonHex text.now result }
{
    let Some(rest) = behind(text, b':') else {
        return head_front(text, 7);
    };
    match behind(rest, b':') {
        Some(tail) => 2 + tail_up_to_front(tail, 7),
        None => 1,
    }
}

/// How many bytes the longest front has that begins an address.
pub(crate) fn address_front(text: &[u8]) -> usize
    ensures { IsLongestFront Address text.now result }
{
    colon_hex_front(text).max(octets_front(text, 3))
}

/// How many bytes the longest front has that begins a length of a prefix.
pub(crate) fn length_text_front(text: &[u8]) -> usize
    ensures { IsLongestFront IsLength text.now result }
{
    length_front(text)
}
