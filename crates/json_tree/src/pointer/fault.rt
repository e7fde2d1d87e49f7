use std::alloc::{AllocError, AllocFailed};
use std::error::Error;
use std::fmt;

/// Why a text is no JSON pointer (RFC 6901).
#[derive(Clone, Copy, Debug, PartialEq, Eq)]
pub enum PointerFault {
    /// The longest prefix that begins some pointer has this many bytes.
    BadAt(usize),
    /// The memory for the names couldn't be had.
    Memory,
}

impl From<AllocError> for PointerFault {
    ghost use Rattle.std.specs.Prelude.{◌≡◌};
    ghost use Rattle.json_tree.specs.declared.pointer.fault.PointerFault.TheVariants.{Memory};

    ghost from_gives = { λ _ fault. fault ≡ Memory };

    fn from(_: AllocError) -> PointerFault {
        PointerFault::Memory
    }
}

impl<T: Drop> From<AllocFailed<T>> for PointerFault {
    ghost use Rattle.std.specs.Prelude.{◌≡◌};
    ghost use Rattle.json_tree.specs.declared.pointer.fault.PointerFault.TheVariants.{Memory};

    ghost from_gives = { λ _ fault. fault ≡ Memory };

    fn from(_: AllocFailed<T>) -> PointerFault {
        PointerFault::Memory
    }
}

impl fmt::Display for PointerFault {
    ghost use Rattle.std.specs.Prelude.{Some};
    ghost use Rattle.json_tree.specs.Faults.{pointer_fault_text};

    ghost output = { λ fault. Some (pointer_fault_text fault) };

    fn fmt<W: fmt::Write>(&self, f: &mut fmt::Formatter<W>) -> fmt::Result {
        match self {
            PointerFault::BadAt(place) => write!(f, "no JSON pointer, from place {place} on"),
            PointerFault::Memory => write!(f, "out of memory"),
        }
    }
}

impl Error for PointerFault {}
