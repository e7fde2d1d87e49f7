ghost use Rattle.std.specs.Prelude.{◌≡◌, ◌≤◌, ◌∷◌, ◌++◌, IfOk, IfErr, MatchOption};
ghost use Rattle.alto_addr.specs.Bits.{HasBits, IsPrefix, last_bits, width_of, number_of};
ghost use Rattle.code_bytes.specs.Pieces.{LengthsOf, Prefixes, PrefixesOf, prefix};
ghost use Rattle.code_bytes.specs.Stuck.{Stops};

use crate::first::first_byte;
use crate::number::read_number;
use crate::stop::Stop;
use alto_addr::{Addr, Prefix};

/// Reads a prefix: 4 or 6, the bytes of the address, and the length. The bits past the length are zero.
pub fn read_prefix(bytes: &[u8]) -> Result<(Prefix, &[u8]), Stop>
    ensures ok { IfOk result (λ x. HasBits x.0.addr × (bytes.now ≡ prefix x.0 ++ x.1.now)) }
    ensures stops { IfErr result (Stops Prefixes bytes.now) }
{
    let Some((family, rest)) = first_byte(bytes) else {
        return Err(Stop::Left(0));
    };
    if family == 4 {
        return read_v4(rest);
    }
    if family == 6 {
        return read_v6(rest);
    }
    Err(Stop::Left(bytes.len()))
}

/// Reads the rest of a prefix of IPv4.
fn read_v4(bytes: &[u8]) -> Result<(Prefix, &[u8]), Stop>
    ensures ok { IfOk result (λ x. HasBits x.0.addr × (4 ∷ bytes.now ≡ prefix x.0 ++ x.1.now)) }
    ensures stops { IfErr result (Stops (PrefixesOf 4) bytes.now) }
{
    let (number, rest) = read_number(bytes, 4, 0, 0xffff_ffff)?;
    let (prefix, rest) = read_length(Addr::V4(number as u32), rest)?;
    Ok((prefix, rest))
}

/// Reads the rest of a prefix of IPv6.
fn read_v6(bytes: &[u8]) -> Result<(Prefix, &[u8]), Stop>
    ensures ok { IfOk result (λ x. HasBits x.0.addr × (6 ∷ bytes.now ≡ prefix x.0 ++ x.1.now)) }
    ensures stops { IfErr result (Stops (PrefixesOf 6) bytes.now) }
{
    let (high, rest) = read_number(bytes, 8, 0, 0xffff_ffff_ffff_ffff)?;
    let (low, rest) = read_number(rest, 8, 0, 0xffff_ffff_ffff_ffff)?;
    let number = u128::from(high) * (1 << 64) + u128::from(low);
    let (prefix, rest) = read_length(Addr::V6(number), rest)?;
    Ok((prefix, rest))
}

/// Reads the length of a prefix with this address.
fn read_length(addr: Addr, bytes: &[u8]) -> Result<(Prefix, &[u8]), Stop>
    ensures ok { IfOk result (λ x. (x.0.addr ≡ addr) × (bytes.now ≡ x.0.len ∷ x.1.now)) }
    ensures stops { IfErr result (Stops (LengthsOf addr) bytes.now) }
{
    let Some((len, rest)) = first_byte(bytes) else {
        return Err(Stop::Left(0));
    };
    match prefix_of(addr, len) {
        Some(prefix) => Ok((prefix, rest)),
        None => Err(Stop::Left(bytes.len())),
    }
}

/// The prefix of this address and length, if the bits past the length are zero.
fn prefix_of(addr: Addr, len: u8) -> Option<Prefix>
    ensures { MatchOption result (¬ (IsPrefix addr len)) (λ prefix. (prefix.addr ≡ addr) × (prefix.len ≡ len)) }
{
    let width = width(&addr);
    if u32::from(len) > width {
        return None;
    }
    if past(width, u32::from(len), number(&addr)) != 0 {
        return None;
    }
    Some(Prefix { addr, len })
}

/// How many bits an address of the family has.
fn width(addr: &Addr) -> u32
    ensures { result ≡ width_of addr.now }
{
    match addr {
        Addr::V4(_) => 32,
        Addr::V6(_) => 128,
    }
}

/// The number that the address is.
fn number(addr: &Addr) -> u128
    ensures { result ≡ number_of addr.now }
{
    match addr {
        Addr::V4(number) => u128::from(*number),
        Addr::V6(number) => *number,
    }
}

/// The bits past the first `len` of a number of `width` bits, as a number.
fn past(width: u32, len: u32, number: u128) -> u128
    requires wide { width ≤ 128 }
    requires within { len ≤ width }
    ensures { result ≡ last_bits width len number }
{
    let past = width - len;
    if past < 128 {
        number % (1 << past)
    } else {
        number
    }
}
