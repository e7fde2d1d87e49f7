//! Prefixes cut to fewer bits (RFC 4291, section 2.3).
ghost use Rattle.std.specs.Prelude.{◌≡◌, ◌≤◌};
ghost use Rattle.alto_addr.specs.Bits.{Holds, first_bits, last_bits};
ghost use Rattle.prop_filters.specs.Inherit.{IsAround};

use alto_addr::{Addr, Prefix};

/// The prefix of this length that holds another. It takes no memory.
pub(crate) fn cut(prefix: &Prefix, len: u8) -> Prefix
    requires { len ≤ prefix.now.len }
    ensures len { result.len ≡ len }
    ensures around { IsAround prefix.now result }
{
    match prefix.addr {
        Addr::V4(number) => cut_v4(number, len),
        Addr::V6(number) => cut_v6(number, len),
    }
}

/// The IPv4 prefix of this length that holds an address.
fn cut_v4(number: u32, len: u8) -> Prefix
    requires { len ≤ 32 }
    ensures len { result.len ≡ len }
    ensures holds { Holds result.addr len (Addr.V4 number) }
{
    let addr = Addr::V4(first_alone(32, u32::from(len), u128::from(number)) as u32);
    Prefix { addr, len }
}

/// The IPv6 prefix of this length that holds an address.
fn cut_v6(number: u128, len: u8) -> Prefix
    requires { len ≤ 128 }
    ensures len { result.len ≡ len }
    ensures holds { Holds result.addr len (Addr.V6 number) }
{
    let addr = Addr::V6(first_alone(128, u32::from(len), number));
    Prefix { addr, len }
}

/// A number of `width` bits with those past the first `len` as zeros.
fn first_alone(width: u32, len: u32, number: u128) -> u128
    requires wide { width ≤ 128 }
    requires within { len ≤ width }
    ensures first { first_bits width len result ≡ first_bits width len number }
    ensures rest { last_bits width len result ≡ 0 }
    ensures below { result ≤ number }
{
    number - last(width, len, number)
}

/// The bits past the first `len` of a number of `width` bits, as a number.
fn last(width: u32, len: u32, number: u128) -> u128
    requires wide { width ≤ 128 }
    requires within { len ≤ width }
    ensures bits { result ≡ last_bits width len number }
    ensures below { result ≤ number }
{
    let past = width - len;
    if past < 128 {
        number % (1 << past)
    } else {
        number
    }
}
