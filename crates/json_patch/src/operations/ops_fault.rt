use std::alloc::{AllocError, AllocFailed};
use std::error::Error;
use std::fmt;

/// Why a document gives no operations (RFC 6902, section 3).
#[derive(Clone, Copy, Debug, PartialEq, Eq)]
pub enum OpsFault {
    /// The item of this number is the first that is no operation, counted from 0; 0 where the document is no list.
    BadOp(usize),
    /// The memory couldn't be had.
    Memory,
}

impl From<AllocError> for OpsFault {
    ghost use Rattle.std.specs.Prelude.{◌≡◌};
    ghost use Rattle.json_patch.specs.declared.operations.ops_fault.OpsFault.TheVariants.{Memory};

    ghost from_gives = { λ _ fault. fault ≡ Memory };

    fn from(_: AllocError) -> OpsFault {
        OpsFault::Memory
    }
}

impl<T: Drop> From<AllocFailed<T>> for OpsFault {
    ghost use Rattle.std.specs.Prelude.{◌≡◌};
    ghost use Rattle.json_patch.specs.declared.operations.ops_fault.OpsFault.TheVariants.{Memory};

    ghost from_gives = { λ _ fault. fault ≡ Memory };

    fn from(_: AllocFailed<T>) -> OpsFault {
        OpsFault::Memory
    }
}

impl fmt::Display for OpsFault {
    ghost use Rattle.std.specs.Prelude.{Some};
    ghost use Rattle.json_patch.specs.Faults.{ops_fault_text};

    ghost output = { λ fault. Some (ops_fault_text fault) };

    fn fmt<W: fmt::Write>(&self, f: &mut fmt::Formatter<W>) -> fmt::Result {
        match self {
            OpsFault::BadOp(k) => write!(f, "no JSON Patch: item {k} is no operation"),
            OpsFault::Memory => write!(f, "out of memory"),
        }
    }
}

impl Error for OpsFault {}
