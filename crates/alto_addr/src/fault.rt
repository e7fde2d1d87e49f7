use std::error::Error;
use std::fmt;

/// Why a text is no address or no prefix, in the order of the tests.
#[derive(Clone, Copy, Debug, PartialEq, Eq)]
pub enum AddrFault {
    /// The text is outside the grammar: its longest front that begins some text of the grammar has so many bytes.
    BadText(usize),
    /// The length is greater than the address has bits.
    BadLength,
    /// Some bit past the length isn't zero.
    HostBits,
}

impl fmt::Display for AddrFault {
    ghost use Rattle.std.specs.Prelude.{Some};
    ghost use Rattle.alto_addr.specs.Faults.{fault_text};

    ghost output = { λ fault. Some (fault_text fault) };

    fn fmt<W: fmt::Write>(&self, f: &mut fmt::Formatter<W>) -> fmt::Result {
        match self {
            AddrFault::BadText(place) => write!(f, "a fault at place {place}"),
            AddrFault::BadLength => write!(f, "a length greater than the address"),
            AddrFault::HostBits => write!(f, "a bit past the length isn't zero"),
        }
    }
}

impl Error for AddrFault {}
