use std::error::Error;
use std::fmt;

/// Why bytes are no stored row.
#[derive(Clone, Copy, Debug, PartialEq, Eq)]
pub enum CodeFault {
    /// The bytes are no row's: their longest prefix that begins one has so many bytes.
    BadAt(usize),
    /// Out of memory.
    Memory,
}

impl fmt::Display for CodeFault {
    ghost use Rattle.std.specs.Prelude.{Some};
    ghost use Rattle.batch_code.specs.Faults.{fault_text};

    ghost output = { λ fault. Some (fault_text fault) };

    fn fmt<W: fmt::Write>(&self, f: &mut fmt::Formatter<W>) -> fmt::Result {
        match self {
            CodeFault::BadAt(place) => write!(f, "no stored row, from place {place} on"),
            CodeFault::Memory => write!(f, "out of memory"),
        }
    }
}

impl Error for CodeFault {}
