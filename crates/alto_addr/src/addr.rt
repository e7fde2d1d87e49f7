ghost use Rattle.std.specs.Prelude.{◌≡◌, ◌+◌, ◌*◌, ◌/◌, ◌%◌, ◌<◌, ◌≤◌, ◌^◌, ◌++◌, ◌∷◌, IfOk, OnOk, decimal, drop};
ghost use Rattle.std.specs.Prelude.{length, string_bytes};
ghost use Rattle.std.specs.Net.Text.{ipv4_text};
ghost use Rattle.alto_addr.specs.Text.{number_after, octets_of, groups_of, addr_text};
ghost use Rattle.std.specs.Net.Addr.{ipv4_octets, ipv6_segments};

use itoa::write_digits;
use std::alloc::{AllocError, Global};
use std::net::{Ipv4Addr, Ipv6Addr};

/// An address: its family, and its bits as a number, the first bit being the highest.
/// Addresses are ordered by family, IPv4 first, and then by number.
#[derive(Clone, Copy, Debug, PartialEq, Eq, PartialOrd, Ord, Hash)]
pub enum Addr {
    /// An address of IPv4: 32 bits.
    V4(u32),
    /// An address of IPv6: 128 bits.
    V6(u128),
}

/// A number of 256 above these octets.
pub(crate) fn from_octets(ip: Ipv4Addr) -> u32
    ensures { result ≡ number_after 256 0 (ipv4_octets ip) }
{
    let [a, b, c, d] = ip.octets();
    ((u32::from(a) * 256 + u32::from(b)) * 256 + u32::from(c)) * 256 + u32::from(d)
}

fn joined(high: u128, low: u16) -> u128
    requires { high < 2 ^ 112 }
    ensures { result ≡ high * 65536 + low }
{
    high * 65536 + u128::from(low)
}

/// The number that the groups of an address write.
pub(crate) fn from_groups(ip: Ipv6Addr) -> u128
    ensures { result ≡ number_after 65536 0 (ipv6_segments ip) }
{
    let [a, b, c, d, e, f, g, h] = ip.segments();
    let four = joined(joined(joined(u128::from(a), b), c), d);
    joined(joined(joined(joined(four, e), f), g), h)
}

fn octet(number: u32, shift: u32) -> u8
    requires { shift < 32 }
    ensures { result ≡ number / 2 ^ shift % 256 }
{
    (number >> shift & 0xff) as u8
}

fn group(number: u128, shift: u32) -> u16
    requires { shift < 128 }
    ensures { result ≡ number / 2 ^ shift % 65536 }
{
    (number >> shift & 0xffff) as u16
}

fn colon_hex(number: u128) -> Ipv6Addr
    ensures { ipv6_segments result ≡ groups_of number }
{
    Ipv6Addr::new(
        group(number, 112),
        group(number, 96),
        group(number, 80),
        group(number, 64),
        group(number, 48),
        group(number, 32),
        group(number, 16),
        group(number, 0),
    )
}

/// The length of the longest text that is written of an address.
const LONGEST: usize = 39;

/// Writes an address as [`write_addr`] does. Takes memory once.
pub fn print_addr(alloc: Global, addr: &Addr) -> Result<String, AllocError>
    ensures { IfOk result (λ text. string_bytes text ≡ addr_text addr.now) }
{
    let mut text = String::with_capacity(alloc, LONGEST)?;
    write_addr(&mut text, addr)?;
    Ok(text)
}

/// Puts an address at the end in its one form (RFC 5952): lower case, no leading zeros, and the longest run of two or
/// more zero groups as `::`, the first on a tie. No part of an IPv6 address is written with dots.
pub fn write_addr(text: &mut String, addr: &Addr) -> Result<(), AllocError>
    ensures { OnOk result (string_bytes text.new ≡ string_bytes text.old ++ addr_text addr.now) }
{
    match *addr {
        Addr::V4(number) => push_dotted(text, number),
        Addr::V6(number) => {
            let ip = colon_hex(number).hex_groups();
            write!(text, "{ip}")
        }
    }
}

/// The length of the longest dotted text.
const LONGEST_DOTTED: usize = 15;

/// Puts the octets of an address with dots between them at the end.
fn push_dotted(text: &mut String, number: u32) -> Result<(), AllocError>
    ensures { OnOk result (string_bytes text.new ≡ string_bytes text.old ++ ipv4_text (octets_of number)) }
{
    let mut room = [0; LONGEST_DOTTED];
    let start = put_dotted(number, &mut room);
    match str::from_utf8(&room[start..]) {
        Ok(dotted) => text.push_str(dotted),
        Err(_) => unreachable!(),
    }
}

/// Puts the octets of an address with dots between them at the end of the room, and gives where they begin. Each stands
/// before those that were put there, so that the text is copied once: a formatter takes four times as many steps.
fn put_dotted(number: u32, room: &mut [u8; LONGEST_DOTTED]) -> usize
    ensures start { result ≤ 15 }
    ensures text { drop result room.new ≡ ipv4_text (octets_of number) }
{
    let last = put_octet(octet(number, 0), room, LONGEST_DOTTED);
    let third = put_before(octet(number, 8), room, last);
    let second = put_before(octet(number, 16), room, third);
    put_before(octet(number, 24), room, second)
}

/// Puts an octet and a dot before a place of the room, and gives where it begins.
fn put_before(octet: u8, room: &mut [u8; LONGEST_DOTTED], end: usize) -> usize
    requires { (4 ≤ end) × (end ≤ 15) }
    ensures start { (result ≤ 15) × (end ≤ result + 4) }
    ensures text { drop result room.new ≡ decimal octet ++ 46 ∷ drop end room.old }
{
    let dot = end - 1;
    room[dot] = b'.';
    put_octet(octet, room, dot)
}

/// Puts an octet before a place of the room, and gives where it begins.
fn put_octet(octet: u8, room: &mut [u8; LONGEST_DOTTED], end: usize) -> usize
    requires { (3 ≤ end) × (end ≤ 15) }
    ensures start { (result ≤ end) × (end ≤ result + 3) }
    ensures text { drop result room.new ≡ decimal octet ++ drop end room.old }
{
    write_digits(octet.into(), room, end)
}
