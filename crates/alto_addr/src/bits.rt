ghost use Rattle.std.specs.Prelude.{◌≡◌, ◌≤◌};
ghost use Rattle.alto_addr.specs.Bits.{first_bits, last_bits};

/// The first `len` bits of a number of `width` bits, as a number.
pub(crate) fn first(width: u32, len: u32, number: u128) -> u128
    requires wide { width ≤ 128 }
    requires within { len ≤ width }
    ensures { result ≡ first_bits width len number }
{
    let past = width - len;
    if past < 128 { number >> past } else { 0 }
}

/// The bits past the first `len` of a number of `width` bits, as a number.
pub(crate) fn past(width: u32, len: u32, number: u128) -> u128
    requires wide { width ≤ 128 }
    requires within { len ≤ width }
    ensures { result ≡ last_bits width len number }
{
    let past = width - len;
    if past < 128 {
        number % (1 << past)
    } else {
        number
    }
}
