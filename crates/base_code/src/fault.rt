ghost use Rattle.std.specs.Prelude.{◌≡◌};
ghost use Rattle.base_code.specs.Faults.{fault_at};

use code_bytes::Stop;
use std::error::Error;
use std::fmt;

/// Why pieces are no base's.
#[derive(Clone, Copy, Debug, PartialEq, Eq)]
pub enum BaseFault {
    /// The piece with this number, from 0, is the first that isn't in its place. Where each is and more are wanted, it
    /// is the number of pieces.
    BadPiece(usize),
    /// Out of memory.
    Memory,
}

impl BaseFault {
    /// The fault where the reader of the piece at this place stops.
    pub(crate) fn at(place: usize, stop: Stop) -> BaseFault
        ensures { result ≡ fault_at place stop }
    {
        match stop {
            Stop::Left(_) => BaseFault::BadPiece(place),
            Stop::Memory => BaseFault::Memory,
        }
    }
}

impl fmt::Display for BaseFault {
    ghost use Rattle.std.specs.Prelude.{Some};
    ghost use Rattle.base_code.specs.Faults.{base_fault_text};

    ghost output = { λ fault. Some (base_fault_text fault) };

    fn fmt<W: fmt::Write>(&self, f: &mut fmt::Formatter<W>) -> fmt::Result {
        match self {
            BaseFault::BadPiece(place) => write!(f, "no base, from piece {place} on"),
            BaseFault::Memory => write!(f, "out of memory"),
        }
    }
}

impl Error for BaseFault {}
