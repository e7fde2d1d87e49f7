ghost use Rattle.std.specs.Prelude.{◌≡◌, ◌<◌, decimal, IfOk, IfErr};
ghost use Rattle.alto_addr.specs.Bits.{width_of, number_of};
ghost use Rattle.alto_addr.specs.Text.{IsAddrText, IsPrefixText};
ghost use Rattle.alto_addr.specs.Tokens.{IsLength};
ghost use Rattle.alto_addr.specs.Place.{IsLongestFront};
ghost use Rattle.alto_addr.specs.Faults.{IsAddrFault, IsPrefixFault, IsLengthFault};

use crate::addr::{Addr, from_groups, from_octets};
use crate::bits::past;
use crate::fault::AddrFault;
use crate::front::{address_front, behind_front, length_text_front};
use crate::prefix::Prefix;
use crate::token::{is_decimal, value};
use std::net::IpAddr;

/// Reads an address (RFC 4291, section 2.2), or tells how far the text goes along with one. It takes no memory.
pub fn read_addr(text: &[u8]) -> Result<Addr, AddrFault>
    ensures ok { IfOk result (λ addr. IsAddrText text.now addr) }
    ensures err { IfErr result (λ fault. IsAddrFault text.now fault) }
{
    match IpAddr::parse_ascii(text) {
        Ok(IpAddr::V4(ip)) => Ok(Addr::V4(from_octets(ip))),
        Ok(IpAddr::V6(ip)) => Ok(Addr::V6(from_groups(ip))),
        Err(_) => Err(AddrFault::BadText(address_front(text))),
    }
}

/// The length that the digits write, or how many bytes of them go along with one.
fn read_length(digits: &[u8]) -> Result<u32, usize>
    ensures ok { IfOk result (λ len. (digits.now ≡ decimal len) × (len < 1000)) }
    ensures err { IfErr result (λ place. ¬ (IsLength digits.now) × IsLongestFront IsLength digits.now place) }
{
    if is_decimal(digits, 1000) {
        Ok(value(digits))
    } else {
        Err(length_text_front(digits))
    }
}

fn width(addr: &Addr) -> u32
    ensures { result ≡ width_of addr.now }
{
    match addr {
        Addr::V4(_) => 32,
        Addr::V6(_) => 128,
    }
}

fn number(addr: &Addr) -> u128
    ensures { result ≡ number_of addr.now }
{
    match addr {
        Addr::V4(number) => u128::from(*number),
        Addr::V6(number) => *number,
    }
}

/// The prefix of this address and length.
fn checked(addr: Addr, len: u32) -> Result<Prefix, AddrFault>
    ensures ok { IfOk result (λ prefix. (prefix.addr ≡ addr) × (prefix.len ≡ len)) }
    ensures err { IfErr result (λ fault. IsLengthFault addr len fault) }
{
    let width = width(&addr);
    if len > width {
        return Err(AddrFault::BadLength);
    }
    if past(width, len, number(&addr)) != 0 {
        return Err(AddrFault::HostBits);
    }
    Ok(Prefix {
        addr,
        len: len as u8,
    })
}

/// Reads an address, `/` and a length of up to three digits. The fault is the first of `AddrFault`. It takes no memory.
pub fn read_prefix(text: &[u8]) -> Result<Prefix, AddrFault>
    ensures ok { IfOk result (λ prefix. IsPrefixText text.now prefix.addr prefix.len) }
    ensures err { IfErr result (λ fault. IsPrefixFault text.now fault) }
{
    let end = address_front(text);
    let Some(digits) = behind_front(text, end, b'/') else {
        return Err(AddrFault::BadText(end));
    };
    let Ok(addr) = read_addr(&text[..end]) else {
        return Err(AddrFault::BadText(end));
    };
    match read_length(digits) {
        Ok(len) => checked(addr, len),
        Err(place) => Err(AddrFault::BadText(end + (1 + place))),
    }
}
